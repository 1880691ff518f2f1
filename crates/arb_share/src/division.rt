//! The even division of a supply of cores.

ghost use Rattle.std.specs.Prelude.{◌≡◌, ◌<◌, ◌≤◌, ◌+◌, sum, map, min};
ghost use Rattle.arb_share.specs.Division.{DividesEvenly};

use crate::limits::APPLICATIONS;

/// How much all applications demand together.
pub fn wanted(demands: &[u8; APPLICATIONS]) -> u16
    ensures { result ≡ sum demands.now }
{
    let mut all = 0;
    for demand in demands {
        all += u16::from(*demand);
    }
    all
}

/// What the applications have after so many rounds. In each round, each application that still wants a core gets one.
fn after_rounds(demands: &[u8; APPLICATIONS], rounds: u8) -> [u8; APPLICATIONS]
    ensures { result ≡ map (λ demand. min demand rounds) demands.now }
{
    let mut shares = *demands;
    for app in 0..APPLICATIONS {
        shares[app] = demands[app].min(rounds);
    }
    shares
}

/// So many numbers of rounds are tried at once. Most divisions have fewer.
const FEW_ROUNDS: u8 = 8;

/// How many rounds a supply covers, or [`FEW_ROUNDS`] where it covers so many. All these are tried, so that no try waits for
/// the outcome of another.
fn few_rounds_covered(demands: &[u8; APPLICATIONS], supply: u8) -> u8
    ensures few { result ≤ FEW_ROUNDS }
    ensures covered { sum (map (λ demand. min demand result) demands.now) ≤ supply }
    ensures most { result < FEW_ROUNDS → supply < sum (map (λ demand. min demand (result + 1)) demands.now) }
{
    let mut covered = 0;
    for before in 0..FEW_ROUNDS {
        let wanted = wanted(&after_rounds(demands, before + 1));
        covered += u8::from(wanted <= u16::from(supply));
    }
    covered
}

/// How many rounds a supply covers that doesn't cover the demands.
///
/// More rounds hand out no fewer cores. So where more than a few are covered, it halves what is between a number of rounds that is
/// covered and one that isn't. One round more than there are cores is never covered.
fn rounds_covered(demands: &[u8; APPLICATIONS], supply: u8) -> u8
    requires { supply < sum demands.now }
    ensures covered { sum (map (λ demand. min demand result) demands.now) ≤ supply }
    ensures most { supply < sum (map (λ demand. min demand (result + 1)) demands.now) }
{
    let mut covered = few_rounds_covered(demands, supply);
    let mut beyond = if covered < FEW_ROUNDS {
        covered + 1
    } else {
        supply.saturating_add(1)
    };
    while 1 < beyond - covered {
        let rounds = covered + (beyond - covered) / 2;
        if wanted(&after_rounds(demands, rounds)) <= u16::from(supply) {
            covered = rounds;
        } else {
            beyond = rounds;
        }
    }
    covered
}

/// The even division of a supply that doesn't cover the demands. It is dealt out in rounds. What the last complete round
/// leaves goes to the smaller application numbers.
pub(crate) fn deal(demands: &[u8; APPLICATIONS], supply: u8) -> [u8; APPLICATIONS]
    requires { supply < sum demands.now }
    ensures { DividesEvenly demands.now supply result }
{
    let rounds = rounds_covered(demands, supply);
    let mut shares = after_rounds(demands, rounds);
    let left = supply - wanted(&shares) as u8;
    // how many applications before this one want a core more: counted whether or not they got one, so that no turn waits for
    // the outcome of the one before
    let mut wanting = 0;
    'turns: for app in 0..APPLICATIONS {
        let wants = shares[app] < demands[app];
        if wants && wanting < left {
            shares[app] += 1;
        }
        wanting += u8::from(wants);
    }
    shares
}

/// The even division of `supply` cores over the demands of sixteen applications. None gets more than it demands. One that
/// still wants a core is at most one core behind any other. What doesn't divide evenly goes to the smaller application
/// numbers.
///
/// It goes over the applications at most twenty times, however large the demands are.
///
/// ```
/// assert_eq!(even(&[4, 1, 5, 0, 0, 0, 0, 0, 0, 0, 0, 0, 0, 0, 0, 0], 7)[..3], [3, 1, 3]);
/// ```
pub fn even(demands: &[u8; APPLICATIONS], supply: u8) -> [u8; APPLICATIONS]
    ensures { DividesEvenly demands.now supply result }
{
    if wanted(demands) <= u16::from(supply) {
        return *demands;
    }
    deal(demands, supply)
}
