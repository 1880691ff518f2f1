//! The machine, with a look-up table in each direction.

ghost use Rattle.std.specs.Prelude.{◌≡◌, ◌≤◌, length, map, IfOk};
ghost use Rattle.arb_config.specs.Limits.{max_sockets};
ghost use Rattle.arb_config.specs.Machine.{socket_numbers_from};

use crate::fault::ConfigFault;
use crate::fixed::{fixed, fixed_lists};
use crate::limits::{
    CORE_NUMBERS, DEFAULT_GRACE, DEFAULT_ORDERS, MAX_GRACE, MAX_MANAGED, MAX_ORDERS, MAX_SOCKETS,
};
use crate::passes::first_fault;
use crate::roles::{Role, roles_of};
use crate::tree::{cores_under, managed_lists, number_or};
use arrayvec::ArrayVec;
use std::alloc::{AllocError, Global};
use std::marker::Model;
use toml::Table;

/// A machine: the managed cores of each socket, the unmanaged cores, the grace and the order limit.
///
/// A managed core's position is its index, from 0, in the managed lists of all sockets joined in order. A topology
/// holds no memory of its own: each list stands in it, sized by its limit. The clause `machine` of each method says what
/// holds of every topology.
#[derive(Debug, Drop)]
pub struct Topology {
    /// The managed core numbers of each socket.
    sockets: ArrayVec<ArrayVec<u16, MAX_MANAGED>, MAX_SOCKETS>,
    /// The unmanaged core numbers of all sockets.
    unmanaged: ArrayVec<u16, CORE_NUMBERS>,
    /// After how many microseconds a thread is moved from a core that is asked back.
    grace: u64,
    /// How many orders a run may enter.
    orders: u32,
    /// The core number at each position.
    cores: ArrayVec<u16, MAX_MANAGED>,
    /// The socket of each position.
    socket_by_position: ArrayVec<u8, MAX_MANAGED>,
    /// What each core number is.
    roles: [Role; CORE_NUMBERS],
}

impl Model for Topology {
    ghost use Rattle.arb_config.specs.Machine.{Machine};

    ghost Value = { Machine };

    ghost use Rattle.arb_config.specs.TopologyFields.{FitsTables, machine_of_fields};

    ghost view = { machine_of_fields };

    ghost invariant = { FitsTables };
}

impl Topology {
    ghost use Rattle.std.specs.Prelude.{◌≡◌, ℕ, ◌<◌, ◌≤◌, ◌≢◌, ◌↔◌, length, slice_index, Contains, IfErr, IfOk, IfSome, IsTrue};
    ghost use Rattle.toml.specs.Parse.{parse_document};
    ghost use Rattle.toml.specs.View.{table_view};
    ghost use Rattle.arb_config.specs.Config.{first_fault, machine_of, outcome_of};
    ghost use Rattle.arb_config.specs.Limits.{core_numbers, max_grace, max_managed, max_orders, max_sockets};
    ghost use Rattle.arb_config.specs.Written.{IsWritten};
    ghost use Rattle.arb_config.specs.Machine.{IsMachine, cores_of, socket_by_position};
    ghost use Rattle.arb_config.specs.Tables.{role_of};

    /// The machine that a TOML text describes, in the format that the [docs of the crate](crate) give.
    ///
    /// # Errors
    /// The first fault of [`ConfigFault`] that applies to the document; `Memory` comes only where an allocation failed.
    ///
    /// ```
    /// let machine = Topology::from_text(alloc, "[[socket]]\nmanaged = [1, 2]\nunmanaged = [0]\n")?;
    /// assert_eq!(machine.managed(), 2);
    /// ```
    pub fn from_text(alloc: Global, text: &str) -> Result<Topology, ConfigFault>
        ensures machine { IfOk result (λ machine. outcome_of (parse_document text.now) ≡ Ok machine) }
        ensures limits { IfOk result IsMachine }
        ensures written { IfOk result (λ machine. IfSome (parse_document text.now) (λ tree. IsWritten tree machine)) }
        ensures fault { IfErr result (λ fault. fault ≢ ConfigFault.Memory
            → outcome_of (parse_document text.now) ≡ Err fault) }
        ensures not_toml { (result ≡ Err ConfigFault.NotToml)
            ↔ ((parse_document text.now ≡ None) × (result ≢ Err ConfigFault.Memory)) }
    {
        let table = match toml::table_from_str(alloc, text) {
            Ok(table) => table,
            Err(error) if error.is_memory() => return Err(ConfigFault::Memory),
            Err(_) => return Err(ConfigFault::NotToml),
        };
        match first_fault(alloc, &table)? {
            Some(fault) => Err(fault),
            None => Ok(Topology::build(alloc, &table)?),
        }
    }

    /// How many sockets the machine has, from 1 to 8.
    pub fn sockets(&self) -> u8
        ensures count { result ≡ length self.now.sockets }
        ensures some { 1 ≤ result }
        ensures few { result ≤ max_sockets }
        ensures machine { IsMachine self.now }
    {
        self.sockets.len() as u8
    }

    /// How many managed cores the machine has, from 1 to 128: as many as there are positions.
    pub fn managed(&self) -> u8
        ensures count { result ≡ length (cores_of self.now) }
        ensures some { 1 ≤ result }
        ensures few { result ≤ max_managed }
        ensures machine { IsMachine self.now }
    {
        self.cores.len() as u8
    }

    /// How many unmanaged cores the machine has, from 1 to 1,023.
    pub fn unmanaged(&self) -> u16
        ensures count { result ≡ length self.now.unmanaged }
        ensures some { 1 ≤ result }
        ensures few { result < core_numbers }
        ensures machine { IsMachine self.now }
    {
        self.unmanaged.len() as u16
    }

    /// The core number at a position, which must be below [`Topology::managed`].
    pub fn core_at(&self, position: u8) -> u16
        requires { position < length (cores_of self.now) }
        ensures core { result ≡ slice_index (cores_of self.now) position }
        ensures low { result < core_numbers }
        ensures machine { IsMachine self.now }
    {
        self.cores[position as usize]
    }

    /// The number of the socket, from 0, that has the core at a position. The position must be below
    /// [`Topology::managed`].
    pub fn socket_of(&self, position: u8) -> u8
        requires { position < length (cores_of self.now) }
        ensures socket { result ≡ slice_index (socket_by_position self.now) position }
        ensures low { result < length self.now.sockets }
        ensures machine { IsMachine self.now }
    {
        self.socket_by_position[position as usize]
    }

    /// The position of the core of a number, or `None` where the core isn't managed. It is the inverse of
    /// [`Topology::core_at`]. Any number may be asked for.
    pub fn position_of(&self, core: u16) -> Option<u8>
        ensures found { IfSome result (λ position. position < length (cores_of self.now)) }
        ensures back { IfSome result (λ position. slice_index (cores_of self.now) position ≡ core) }
        ensures forth { (position : ℕ) → position < length (cores_of self.now)
            → slice_index (cores_of self.now) position ≡ core → result ≡ Some position }
        ensures machine { IsMachine self.now }
    {
        match self.role(core) {
            Role::Managed(position) => Some(position),
            _ => None,
        }
    }

    /// Whether a core number is one of the unmanaged cores. Any number may be asked for.
    pub fn is_unmanaged(&self, core: u16) -> bool
        ensures listed { IsTrue result ↔ Contains self.now.unmanaged core }
        ensures machine { IsMachine self.now }
    {
        matches!(self.role(core), Role::Unmanaged)
    }

    /// After how many microseconds a thread is moved from a core that is asked back: from 1 to 1,000,000,000.
    pub fn grace(&self) -> u64
        ensures grace { result ≡ self.now.grace }
        ensures some { 1 ≤ result }
        ensures short { result ≤ max_grace }
        ensures machine { IsMachine self.now }
    {
        self.grace
    }

    /// How many orders a run may enter: from 1 to 1,000,000.
    pub fn orders(&self) -> u32
        ensures orders { result ≡ self.now.orders }
        ensures some { 1 ≤ result }
        ensures few { result ≤ max_orders }
        ensures machine { IsMachine self.now }
    {
        self.orders
    }

    /// A copy. Unlike a `clone`, it takes no memory and can't fail.
    pub fn copied(&self) -> Topology
        ensures same { result ≡ self.now }
        ensures machine { IsMachine self.now }
    {
        Topology {
            sockets: fixed_lists(self.sockets.as_slice()),
            unmanaged: fixed(self.unmanaged.as_slice()),
            grace: self.grace,
            orders: self.orders,
            cores: fixed(self.cores.as_slice()),
            socket_by_position: fixed(self.socket_by_position.as_slice()),
            roles: self.roles,
        }
    }

    /// What a core number is on this machine.
    fn role(&self, core: u16) -> Role
        ensures role { result ≡ role_of (cores_of self.now) self.now.unmanaged core }
        ensures machine { IsMachine self.now }
    {
        match self.roles.get(core as usize) {
            Some(role) => *role,
            None => Role::Absent,
        }
    }

    /// The machine of a tree to which no fault applies.
    fn build(alloc: Global, table: &Table) -> Result<Topology, AllocError>
        requires { first_fault (table_view table.now) ≡ None }
        ensures { IfOk result (λ machine. machine ≡ machine_of (table_view table.now)) }
    {
        let sockets = managed_lists(alloc, table)?;
        let socket_by_position = socket_numbers(alloc, sockets.as_slice())?;
        let cores = cores_under(alloc, table, "managed")?;
        let unmanaged = cores_under(alloc, table, "unmanaged")?;
        let roles = roles_of(cores.as_slice(), unmanaged.as_slice());
        Ok(Topology {
            sockets: fixed_lists(sockets.as_slice()),
            unmanaged: fixed(unmanaged.as_slice()),
            grace: number_or(table, "grace", DEFAULT_GRACE, 1, MAX_GRACE),
            orders: number_or(
                table,
                "orders",
                u64::from(DEFAULT_ORDERS),
                1,
                u64::from(MAX_ORDERS),
            ) as u32,
            cores: fixed(cores.as_slice()),
            socket_by_position: fixed(socket_by_position.as_slice()),
            roles,
        })
    }
}

/// The number of each socket, from 0, once for each of its cores.
fn socket_numbers(alloc: Global, sockets: &[Vec<u16>]) -> Result<Vec<u8>, AllocError>
    requires { length sockets.now ≤ max_sockets }
    ensures { IfOk result (λ numbers. numbers.items ≡ socket_numbers_from 0 (map (λ cores. cores.items) sockets.now)) }
{
    let mut numbers = Vec::new(alloc);
    for (number, cores) in sockets.iter().enumerate() {
        numbers.resize(numbers.len() + cores.len(), number as u8)?;
    }
    Ok(numbers)
}
