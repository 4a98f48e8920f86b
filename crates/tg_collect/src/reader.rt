//! The store as the rules read it: a vertex is kept in its slot.
ghost use Rattle.std.specs.Prelude.{◌≡◌, MatchOption, Some};
ghost use Rattle.tg_rights.specs.Promise.Letters.{none};
ghost use Rattle.tg_graph.specs.Promise.Protection.{kind_of, label};
ghost use Rattle.tg_collect.specs.Promise.Readings.{held, place};

use crate::store::Store;
use tg_graph::{Reader, Spot};
use tg_rights::{Kind, Rights};

impl Reader for Store {
    ghost use Rattle.std.specs.Prelude.{◌≡◌, Some};
    ghost use Rattle.tg_collect.specs.Promise.Readings.{held, place};

    type Place = u32;

    ghost graph = { λ s. held s 0 };

    ghost is_at = { λ s spot. place s spot.place ≡ Some spot.serial };

    fn edge(&self, from: Spot<u32>, to: u64) -> Option<(u32, Rights)>
        requires { place self.now from.place ≡ Some from.serial }
        ensures { MatchOption result (label (held self.now 0) from.serial to ≡ none)
            (λ e. (place self.now e.0 ≡ Some to) × (e.1 ≡ label (held self.now 0) from.serial to)) }
    {
        Store::edge(self, from.place, to)
    }

    fn kind_at(&self, at: Spot<u32>) -> Option<Kind>
        requires { place self.now at.place ≡ Some at.serial }
        ensures { result ≡ kind_of (held self.now 0) at.serial }
    {
        Some(self.kind(at.place))
    }
}
