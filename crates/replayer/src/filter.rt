//! Which datagrams of a capture are the channel's.
ghost use Rattle.std.specs.Prelude.{◌≡◌};
ghost use Rattle.replayer.specs.Filters.{admits};

/// The destinations that a channel's datagrams have: groups and ports. Where none is named, each is one of them.
#[derive(Clone, Copy, PartialEq, Eq, Debug)]
pub struct Filter<'a, 'b> {
    pub groups: &'a [u32],
    pub ports: &'b [u16],
}

impl Filter<'_, '_> {
    /// Whether a destination is the channel's.
    pub fn admits(&self, group: u32, port: u16) -> bool
        ensures { result ≡ admits self.now.groups.now self.now.ports.now group port }
    {
        (self.groups.is_empty() || self.groups.contains(&group))
            && (self.ports.is_empty() || self.ports.contains(&port))
    }
}
