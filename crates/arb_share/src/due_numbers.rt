//! The cores due to each application.

ghost use Rattle.std.specs.Prelude.{◌≡◌};
ghost use Rattle.arb_share.specs.Due.{due_of};

use crate::demands::Demands;
use crate::limits::APPLICATIONS;
use crate::request::Request;

/// The cores due to each of sixteen applications on a machine with `managed` cores. Level 0 divides them evenly over the
/// entries at level 0, and each further level divides what the levels before it left. An application without a request
/// counts as one that asks for no core.
pub fn due(requests: &[Option<Request>; APPLICATIONS], managed: u8) -> [u8; APPLICATIONS]
    ensures { result ≡ due_of requests.now managed }
{
    let mut demands = Demands::new();
    for app in 0..APPLICATIONS {
        demands.set(app, &requests[app]);
    }
    demands.due(managed)
}
