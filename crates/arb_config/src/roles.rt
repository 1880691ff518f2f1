//! What each core number is on a machine.

ghost use Rattle.std.specs.Prelude.{◌<◌, ◌≤◌, ◌≢◌, ◌++◌, [], length};
ghost use Rattle.std.specs.List.{All, AllPairs};
ghost use Rattle.arb_config.specs.Tables.{HasRoles};
ghost use Rattle.arb_config.specs.Limits.{core_numbers, max_managed};

use crate::limits::CORE_NUMBERS;

/// What a core number is on a machine.
#[derive(Clone, Copy, Debug, PartialEq, Eq)]
pub enum Role {
    /// The machine has no such core.
    Absent,
    /// The ordinary scheduler keeps the core.
    Unmanaged,
    /// The arbiter hands the core out; this is its position.
    Managed(u8),
}

/// The role of each core number, where `cores` are the managed cores by position.
pub fn roles_of(cores: &[u16], unmanaged: &[u16]) -> [Role; CORE_NUMBERS]
    requires few { length cores.now ≤ max_managed }
    requires managed_low { All (λ core. core < core_numbers) cores.now }
    requires unmanaged_low { All (λ core. core < core_numbers) unmanaged.now }
    requires different { AllPairs (λ core other. core ≢ other) (cores.now ++ unmanaged.now) }
    ensures { HasRoles cores.now unmanaged.now result }
{
    let mut roles = unmanaged_roles(unmanaged);
    for (position, core) in cores.iter().enumerate() {
        roles[*core as usize] = Role::Managed(position as u8);
    }
    roles
}

fn unmanaged_roles(unmanaged: &[u16]) -> [Role; CORE_NUMBERS]
    requires { All (λ core. core < core_numbers) unmanaged.now }
    ensures { HasRoles [] unmanaged.now result }
{
    let mut roles = [Role::Absent; CORE_NUMBERS];
    for core in unmanaged {
        roles[*core as usize] = Role::Unmanaged;
    }
    roles
}
