//! How the plain arbiter shares cores: due numbers, asks and grants.

ghost use Rattle.std.specs.Prelude.{◌<◌};

use crate::tests::arbiter::{ALL_THREADS, APPLICATIONS, CORES, Plain, Spot, THREADS};

/// The application that is served next: of those that still want the one with the smallest share, and of these the
/// one with the smallest number.
fn next_turn(demands: &[u8; APPLICATIONS], shares: &[u8; APPLICATIONS]) -> Option<usize> {
    let mut best: Option<(u8, usize)> = None;
    for app in 0..APPLICATIONS {
        let share = shares[app];
        let is_better = match best {
            Some((other, _)) => share < other,
            None => true,
        };
        if share < demands[app] && is_better {
            best = Some((share, app));
        }
    }
    let (_, app) = best?;
    Some(app)
}

/// A supply dealt out one by one.
fn divide(demands: &[u8; APPLICATIONS], supply: u8) -> [u8; APPLICATIONS] {
    let mut shares = [0; APPLICATIONS];
    for _ in 0..supply {
        if let Some(app) = next_turn(demands, &shares) {
            if let Some(share) = shares.get_mut(app) {
                *share = share.wrapping_add(1);
            }
        }
    }
    shares
}

impl Plain {
    /// How many threads of an application are at a spot of some kind.
    fn count<F: Fn(Spot) -> bool>(&self, app: usize, is_so: F) -> u8
        requires { F.IsAlwaysCallable is_so }
    {
        let mut total: u8 = 0;
        for thread in 0..ALL_THREADS {
            if thread / THREADS == app && is_so(self.spots[thread]) {
                total = total.wrapping_add(1);
            }
        }
        total
    }

    /// How many cores an application owns.
    pub fn owned(&self, app: usize) -> u8 {
        self.count(app, |spot| matches!(spot, Spot::On(_, _)))
    }

    /// How many of them are asked back.
    pub fn asked(&self, app: usize) -> u8 {
        self.count(app, |spot| matches!(spot, Spot::On(_, Some(_))))
    }

    /// How many threads of an application wait.
    pub fn waiting(&self, app: usize) -> u8 {
        self.count(app, |spot| matches!(spot, Spot::Waiting(_)))
    }

    fn socket(&self, position: u32) -> u8 {
        match self.core(position) {
            Some((_, socket)) => socket,
            None => 255,
        }
    }

    /// How many cores of a socket an application owns.
    fn owned_on(&self, app: usize, socket: u8) -> u8 {
        self.count(app, |spot| match spot {
            Spot::On(position, _) => self.socket(position) == socket,
            _ => false,
        })
    }

    /// How many managed cores there are.
    fn managed(&self) -> u8 {
        let mut managed: u8 = 0;
        for position in 0..CORES as u32 {
            if self.core(position).is_some() {
                managed = managed.wrapping_add(1);
            }
        }
        managed
    }

    /// How many cores an application asks for at the first so many levels together.
    fn asked_below(&self, app: usize, levels: u8) -> u16 {
        let mut total: u16 = 0;
        for level in 0..8u8 {
            if let Some(Some(request)) = self.requests.get(app) {
                if level < levels {
                    total = total.wrapping_add(u16::from(request.entry(level)));
                }
            }
        }
        total
    }

    /// How many of them stand: no more than its cap, where it has one.
    fn standing_below(&self, app: usize, levels: u8) -> u16 {
        let asked = self.asked_below(app, levels);
        match self.caps.get(app) {
            Some(Some(cap)) => asked.min(u16::from(*cap)),
            _ => asked,
        }
    }

    /// Whether an application asks for more than its cap.
    pub fn is_cut(&self, app: usize) -> bool {
        self.standing_below(app, 8) < self.asked_below(app, 8)
    }

    /// What stands of each application's request at a level: what it adds to the levels before.
    fn demands(&self, level: u8) -> [u8; APPLICATIONS]
        requires { level < 8 }
    {
        let mut demands = [0; APPLICATIONS];
        for app in 0..APPLICATIONS {
            let before = self.standing_below(app, level);
            let after = self.standing_below(app, level + 1);
            demands[app] = u8::try_from(after.saturating_sub(before)).unwrap_or(255);
        }
        demands
    }

    /// The cores due to each application.
    pub fn due(&self) -> [u8; APPLICATIONS] {
        let mut due: [u8; APPLICATIONS] = [0; APPLICATIONS];
        let mut left = self.managed();
        for level in 0..8 {
            let shares = divide(&self.demands(level), left);
            for app in 0..APPLICATIONS {
                due[app] = due[app].wrapping_add(shares[app]);
                left = left.wrapping_sub(shares[app]);
            }
        }
        due
    }

    /// The cores due to one of them.
    pub fn due_of(&self, app: usize) -> u8 {
        self.due().get(app).copied().unwrap_or(0)
    }

    /// What decides which core a thread's application gives up first, the smallest first: one that is asked back
    /// longest; then one on the socket where the application owns the fewest, and there the one farthest back.
    fn key(&self, thread: usize) -> Option<(u8, u64, u32)> {
        match self.spot(thread) {
            Spot::On(position, Some(since)) => Some((0, since, position)),
            Spot::On(position, None) => {
                let there = self.owned_on(thread / THREADS, self.socket(position));
                Some((1, u64::from(there), (CORES as u32).saturating_sub(position)))
            }
            _ => None,
        }
    }

    /// How many cores its application gives up before that of a thread.
    fn rank(&self, thread: usize, key: (u8, u64, u32)) -> u8 {
        let mut rank: u8 = 0;
        for other in 0..ALL_THREADS {
            if other / THREADS == thread / THREADS {
                if let Some(other_key) = self.key(other) {
                    if other_key < key {
                        rank = rank.wrapping_add(1);
                    }
                }
            }
        }
        rank
    }

    /// Whether the core of a thread is asked back.
    fn is_asked(&self, thread: usize, due: &[u8; APPLICATIONS]) -> bool {
        let Some(key) = self.key(thread) else {
            return false;
        };
        let app = thread / THREADS;
        let kept = due.get(app).copied().unwrap_or(0);
        self.rank(thread, key) < self.owned(app).saturating_sub(kept)
    }

    /// Asks cores back, as many of each application as it owns above what is due.
    pub fn ask_back(&mut self, due: &[u8; APPLICATIONS]) {
        let mut flags = [false; ALL_THREADS];
        for thread in 0..ALL_THREADS {
            flags[thread] = self.is_asked(thread, due);
        }
        for thread in 0..ALL_THREADS {
            if let Spot::On(position, since) = self.spots[thread] {
                let asked = if flags[thread] {
                    Some(since.unwrap_or(self.clock))
                } else {
                    None
                };
                self.spots[thread] = Spot::On(position, asked);
            }
        }
    }

    fn free(&self) -> u8 {
        let mut free: u8 = 0;
        for position in 0..CORES as u32 {
            if self.is_free(position) {
                free = free.wrapping_add(1);
            }
        }
        free
    }

    fn is_free(&self, position: u32) -> bool {
        self.core(position).is_some() && self.owner(position).is_none()
    }

    /// Gives the free cores to those that own less than is due and have threads that wait.
    pub fn grant_all(&mut self, due: &[u8; APPLICATIONS]) {
        let mut needs = [0; APPLICATIONS];
        for app in 0..APPLICATIONS {
            needs[app] = due[app]
                .saturating_sub(self.owned(app))
                .min(self.waiting(app));
        }
        let grants = divide(&needs, self.free());
        for app in 0..APPLICATIONS {
            for _ in 0..grants[app] {
                self.grant(app);
            }
        }
    }

    /// The longest waiting thread of an application gets the free core that comes first.
    fn grant(&mut self, app: usize) {
        let Some(position) = self.best_free(app) else {
            return;
        };
        let Some(thread) = self.longest_waiting(app) else {
            return;
        };
        if let Some(spot) = self.spots.get_mut(thread) {
            *spot = Spot::On(position, None);
        }
    }

    /// The free core on the socket where the application owns most; of these the first.
    fn best_free(&self, app: usize) -> Option<u32> {
        let mut best: Option<(u8, u8, u32)> = None;
        for position in 0..CORES as u32 {
            let socket = self.socket(position);
            let missing = (CORES as u8).saturating_sub(self.owned_on(app, socket));
            let key = (missing, socket, position);
            let is_better = match best {
                Some(other) => key < other,
                None => true,
            };
            if self.is_free(position) && is_better {
                best = Some(key);
            }
        }
        let (_, _, position) = best?;
        Some(position)
    }

    fn longest_waiting(&self, app: usize) -> Option<usize> {
        let mut best: Option<(u64, usize)> = None;
        for thread in 0..ALL_THREADS {
            if let Spot::Waiting(ticket) = self.spots[thread] {
                let is_better = match best {
                    Some((other, _)) => ticket < other,
                    None => true,
                };
                if thread / THREADS == app && is_better {
                    best = Some((ticket, thread));
                }
            }
        }
        let (_, thread) = best?;
        Some(thread)
    }
}
