// What is counted and written: the lent planes of a picture, each whole, and its session, of an accepted size. A public function asks that of its caller
// (`Ready`) and puts them together; the methods in count.rt, macroblock.rt and write.rt then have it from the value. They take it by reference: by value it
// was copied for each macroblock. A macroblock's row and column, and a place in the output, stay numbers with a `requires`: a type for them would have to hold
// the picture, or the output, and be no plainer.
ghost use Rattle.ycbcr_image.specs.Sizes.{sequence_of};
ghost use Rattle.slice.specs.Macroblocks.{lends_in, Ready, Ready-prop};

use crate::Planes;
use ycbcr_image::Session;

#[derive(Clone, Copy)]
pub struct Picture<'a> {
    pub planes: Planes<'a>,
    pub s: Session,
    ghost ready: { Ready (sequence_of s) (lends_in planes) } by { Ready-prop (sequence_of s) (lends_in planes) },
}
