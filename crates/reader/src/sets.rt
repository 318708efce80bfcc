// Parameter sets read from their units. The payload of one is short, or it is none of the form. It is kept in an array, with its length: there is no heap.
ghost use Rattle.std.specs.Prelude.{◌≡◌};
ghost use Rattle.lists.specs.Test.{same};
ghost use Rattle.parameter_sets.specs.Sps.{base_level};
ghost use Rattle.parameter_sets.specs.Pps.{pps_payload};
ghost use Rattle.parameter_sets.specs.Read.{read_sps};
ghost use Rattle.parameter_sets.specs.Answers.{sps_read};
ghost use Rattle.reader.specs.Units.{IsUnit, payload_of};

use crate::unit::NalUnit;
use nal_unit::taking;
use ycbcr_image::Session;

impl NalUnit<'_> {
    // The size and kind that the unit's payload says as a sequence parameter set.
    pub fn read_sps(self) -> Option<Session>
        requires { IsUnit self }
        ensures { sps_read result ≡ read_sps base_level (payload_of self.entry) }
    {
        let n = taking::payload_len(self.take, self.begin, self.end);
        if 32 < n {
            return None;
        }
        let mut payload = [0; 32];
        taking::take_slow(self.take, self.begin + 1, self.end, n, &mut payload, 0);
        parameter_sets::read_sps(&payload[..n], 10)
    }

    // Whether the unit's payload is that of the picture parameter set.
    pub fn is_pps(self) -> bool
        requires { IsUnit self }
        ensures { result ≡ same (payload_of self.entry) pps_payload }
    {
        if taking::payload_len(self.take, self.begin, self.end) != 3 {
            return false;
        }
        let mut payload = [0; 3];
        taking::take_slow(self.take, self.begin + 1, self.end, 3, &mut payload, 0);
        parameter_sets::is_pps(&payload)
    }
}
