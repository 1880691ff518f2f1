//! What the applications ask for, and what of it stands.

ghost use Rattle.std.specs.Prelude.{◌≡◌, ◌<◌, None, Some, is_some, option_map, replicate, slice_index_or, slice_set};
ghost use Rattle.arb_model.specs.Standing.{cut_at, requests_standing};
ghost use Rattle.arb_share.specs.Due.{due_of};
ghost use Rattle.arb_share.specs.Limits.{applications, levels};

use arb_model::APPLICATIONS;
use arb_share::{Demands, Request};
use std::marker::Model;

/// The largest cap that an application may have.
pub const MAX_CAP: u8 = 128;

/// The request and the cap of each application. Beside them stands what the applications want by the requests standing,
/// so that an order looks at its own application alone.
#[derive(Drop)]
pub struct Requests {
    /// The request of each application that has joined, in full.
    full: [Option<Request>; APPLICATIONS],
    /// The cap of each application that has one.
    caps: [Option<u8>; APPLICATIONS],
    /// What the applications want by the requests standing: each cut at its application's cap.
    demands: Demands,
}

impl Model for Requests {
    ghost use Rattle.arb_share.specs.Demands.{AreDemands};
    ghost use Rattle.arb_model.specs.Standing.{requests_standing};
    ghost use Rattle.arb_core.specs.Asked.{Asked};

    ghost Value = { Asked };

    ghost view = { λ r. record { requests = r.full; caps = r.caps } };

    ghost invariant = { λ r. AreDemands r.demands (requests_standing r.full r.caps) };
}

/// What of a request stands: the request, cut at the cap where there is one.
fn stands(request: &Option<Request>, cap: Option<u8>) -> Option<Request>
    ensures { result ≡ option_map (cut_at cap) request.now }
{
    match (request, cap) {
        (Some(request), Some(cap)) => Some(request.cut(cap)),
        _ => *request,
    }
}

impl Requests {
    /// No application has joined.
    pub fn new() -> Requests
        ensures { result ≡ record { requests = replicate applications None; caps = replicate applications None } }
    {
        Requests {
            full: [None; APPLICATIONS],
            caps: [None; APPLICATIONS],
            demands: Demands::new(),
        }
    }

    /// Whether an application has joined.
    pub fn has_joined(&self, app: usize) -> bool
        requires { app < applications }
        ensures { result ≡ is_some (slice_index_or self.now.requests app None) }
    {
        self.full[app].is_some()
    }

    /// What of an application's request stands, if it has joined: the request, cut at the cap where there is one.
    pub fn standing(&self, app: usize) -> Option<Request>
        requires { app < applications }
        ensures { result ≡ option_map (cut_at (slice_index_or self.now.caps app None)) (slice_index_or self.now.requests app None) }
    {
        stands(&self.full[app], self.caps[app])
    }

    /// The cores due to each application by the requests standing, on a machine with `managed` cores.
    pub fn due(&self, managed: u8) -> [u8; APPLICATIONS]
        ensures { result ≡ due_of (requests_standing self.now.requests self.now.caps) managed }
    {
        self.demands.due(managed)
    }

    /// An application joins: it asks for no core, and has no cap.
    pub fn join(&mut self, app: usize)
        requires { app < applications }
        ensures { self.new ≡ record {
          requests = slice_set self.old.requests app (Some (replicate levels 0));
          caps = slice_set self.old.caps app None;
        } }
    {
        self.set(app, Some(Request::default()), None);
    }

    /// An application's request becomes another; its cap stays.
    pub fn ask(&mut self, app: usize, request: Request)
        requires { app < applications }
        ensures { self.new ≡ record self.old { requests = slice_set self.old.requests app (Some request) } }
    {
        self.set(app, Some(request), self.caps[app]);
    }

    /// An application's cap becomes another; its request stays, in full.
    pub fn cap(&mut self, app: usize, cap: u8)
        requires { app < applications }
        ensures { self.new ≡ record self.old { caps = slice_set self.old.caps app (Some cap) } }
    {
        self.set(app, self.full[app], Some(cap));
    }

    /// An application leaves, and its cap goes with it.
    pub fn leave(&mut self, app: usize)
        requires { app < applications }
        ensures { self.new ≡ record {
          requests = slice_set self.old.requests app None;
          caps = slice_set self.old.caps app None;
        } }
    {
        self.set(app, None, None);
    }

    /// An application's request and cap become others, or none.
    fn set(&mut self, app: usize, request: Option<Request>, cap: Option<u8>)
        requires { app < applications }
        ensures { self.new ≡ record {
          requests = slice_set self.old.requests app request;
          caps = slice_set self.old.caps app cap;
        } }
    {
        self.full[app] = request;
        self.caps[app] = cap;
        let standing = stands(&self.full[app], cap);
        self.demands.set(app, &standing);
    }
}
