// The roles of an array's devices.
ghost use Rattle.std.specs.Prelude.{◌≡◌, ◌<◌, ◌≤◌, List, ℕ, length, set};

use std::alloc::{AllocError, Global};
use std::marker::Model;

/// The roles for which a superblock of 4096 bytes has room.
pub const MAX_ROLES: u32 = 1920;

/// The role of a device that has none in the array (`MD_DISK_ROLE_SPARE` of `md_p.h`).
pub const SPARE: u16 = 0xffff;

/// The role of a device that has failed (`MD_DISK_ROLE_FAULTY` of `md_p.h`).
pub const FAULTY: u16 = 0xfffe;

/// The roles by device number, at most 1920 of them: `dev_roles` of `md_p.h`, whose length is
/// `max_dev`. Contracts see the list.
#[derive(Debug, Drop)]
pub struct Roles {
    list: Vec<u16>,
}

impl Model for Roles {
    ghost Value = { List ℕ };

    ghost view = { λ s. s.list.items };

    ghost invariant = { λ s. length s.list.items ≤ 1920 };
}

impl Roles {
    /// The roles of a list for which a superblock has room. It takes no memory.
    pub fn from_vec(list: Vec<u16>) -> Roles
        requires { length list.items ≤ 1920 }
        ensures { result ≡ list.items }
    {
        Roles { list }
    }

    /// How many roles there are: `max_dev` of `md_p.h`.
    pub fn max_dev(&self) -> u32
        ensures value { result ≡ length self.now }
        ensures few { result ≤ 1920 }
    {
        self.list.len() as u32
    }

    /// The list of the roles, by device number.
    pub fn as_slice(&self) -> &[u16]
        ensures { result.now ≡ self.now }
    {
        self.list.as_slice()
    }

    /// Gives the device with this number another role.
    pub fn set(&mut self, number: u32, role: u16)
        requires { number < length self.old }
        ensures { self.new ≡ set self.old number role }
    {
        self.list[number as usize] = role;
    }
}

impl Roles {
    ghost use Rattle.std.specs.Prelude.{IfOk};

    /// A copy of the roles.
    pub fn try_clone(&self, alloc: Global) -> Result<Roles, AllocError>
        ensures { IfOk result (λ copy. copy ≡ self.now) }
    {
        Ok(Roles {
            list: Vec::from_slice(alloc, &self.list)?,
        })
    }
}
