// A third waiting order: its rule is all that it costs.
ghost use Rattle.waitingtests.specs.Latest.{latest, latest_within};

use waiting::request::WaitingRequest;
use waiting::rule::PickRule;

// Who was put last is served first.
#[derive(Clone, Copy)]
pub struct LastCome;

impl PickRule for LastCome {
    ghost picks = { λ _ line. latest line };

    ghost within = { λ _ line. latest_within line };

    fn pick(&self, line: &[WaitingRequest]) -> Option<usize> {
        line.len().checked_sub(1)
    }
}
