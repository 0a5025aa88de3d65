//! The settings of a server.
ghost use Rattle.std.specs.Prelude.{◌≡◌, ◌≤◌};

use bc_prov::Providers;

/// The settings of a server: the providers that analyse bodies, the number of sessions, 1 to 16, and the most calls of the history, 1 to
/// 1,000,000.
#[derive(Drop)]
pub struct Service<'a> {
    pub providers: &'a Providers,
    pub sessions: u8,
    pub capacity: u32,
    ghost some: { 1 ≤ sessions },
    ghost few: { sessions ≤ 16 },
    ghost least: { 1 ≤ capacity },
    ghost most: { capacity ≤ 1000000 },
}

impl<'a> Service<'a> {
    /// Returns a service with these providers, 1 to 16 sessions, and a capacity of 1 to 1,000,000 calls.
    pub fn new(providers: &'a Providers, sessions: u8, capacity: u32) -> Service<'a>
        requires some { 1 ≤ sessions }
        requires few { sessions ≤ 16 }
        requires least { 1 ≤ capacity }
        requires most { capacity ≤ 1000000 }
        ensures { result.sessions ≡ sessions }
    {
        Service {
            providers,
            sessions,
            capacity,
        }
    }
}
