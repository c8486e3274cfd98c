#![tactic(auto)]
// Protocol versions, and what the sides send from which version on. The names are those of nix-wire.
ghost use Rattle.std.specs.Prelude.{◌+◌, ◌*◌, ◌≡◌};
ghost use Rattle.layouts.specs.Primitive.{version, from_wire, at_least};
ghost use Rattle.versions.specs.Handshake.{version_of};

#[derive(Clone, Copy)]
pub struct ProtocolVersion {
    pub major: u16,
    pub minor: u8,
}

impl ProtocolVersion {
    // The version major.minor.
    pub fn new(major: u16, minor: u8) -> Self
        ensures { version_of result ≡ version major minor }
    {
        Self {
            major: major,
            minor: minor,
        }
    }

    // Read from the wire: the major is bits 8 to 15 and the minor bits 0 to 7; the bits above don't count.
    pub fn from_wire(wire: u64) -> Self
        ensures { version_of result ≡ from_wire wire }
    {
        Self {
            major: (wire / 256 % 256) as u16,
            minor: (wire % 256) as u8,
        }
    }

    // Read back by from_wire where the major is below 256; one above has no place on the wire.
    pub fn to_wire(self) -> u64
        ensures { result ≡ 256 * self.major + self.minor }
    {
        256 * (self.major as u64) + self.minor as u64
    }

    // By major, then by minor.
    pub fn at_least(self, other: ProtocolVersion) -> bool
        ensures { result ≡ at_least (version_of self) (version_of other) }
    {
        if self.major == other.major {
            return other.minor <= self.minor;
        }
        other.major < self.major
    }

    // Is it 1.minor or later?
    fn since(self, minor: u8) -> bool
        ensures { result ≡ at_least (version_of self) (version 1 minor) }
    {
        self.at_least(ProtocolVersion::new(1, minor))
    }

    // Do both sides send their features?
    pub fn has_features(self) -> bool
        ensures { result ≡ at_least (version_of self) (version 1 38) }
    {
        self.since(38)
    }

    // Does the client send its CPU affinity?
    pub fn has_cpu_affinity(self) -> bool
        ensures { result ≡ at_least (version_of self) (version 1 14) }
    {
        self.since(14)
    }

    // Does the client send whether to reserve space?
    pub fn has_reserve_space(self) -> bool
        ensures { result ≡ at_least (version_of self) (version 1 11) }
    {
        self.since(11)
    }

    // Does the client flush, and then read the daemon's version?
    pub fn has_post_handshake_flush(self) -> bool
        ensures { result ≡ at_least (version_of self) (version 1 33) }
    {
        self.since(33)
    }
}
