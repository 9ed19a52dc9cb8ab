ghost use Rattle.std.specs.Prelude.{◌≡◌, ◌↔◌, IsTrue, IsSome, IfSome};
ghost use Rattle.frame_wire.specs.Limits.{IsMembers, IsUpTo, EachIsUpTo, IsLimits, limits_for};

/// What a server keeps at most. The calls that take limits take those that are `in_bounds`.
#[derive(Clone, Copy, Debug, PartialEq, Eq)]
pub struct Limits {
    /// Members of each stream: 1, 3, 5 or 7.
    pub members: u8,
    /// Live streams of a server: 1 to 16.
    pub streams: u32,
    /// Bytes of one stream's log: 1 to 134,217,728. The logs of all members have at most 3,221,225,472 bytes.
    pub log_bytes: u64,
    /// Entries of one stream that wait to be written: 1 to 4,096.
    pub queue: u32,
    /// References of publishers that one stream's tracking keeps: 1 to 1,024.
    pub references: u32,
    /// Names of consumers that one stream's tracking keeps: 1 to 1,024.
    pub consumers: u32,
}

fn is_members(n: u8) -> bool
    ensures { IsTrue result ↔ IsMembers n }
{
    n == 1 || n == 3 || n == 5 || n == 7
}

fn is_up_to(greatest: u64, n: u64) -> bool
    ensures { IsTrue result ↔ IsUpTo greatest n }
{
    n >= 1 && n <= greatest
}

impl Limits {
    /// Three members, 16 streams of 64 MiB, 4,096 entries waiting, 1,024 references and 1,024 consumers.
    pub fn standard() -> Limits
        ensures members { result.members ≡ 3 }
        ensures streams { result.streams ≡ 16 }
        ensures log_bytes { result.log_bytes ≡ 67108864 }
        ensures queue { result.queue ≡ 4096 }
        ensures references { result.references ≡ 1024 }
        ensures consumers { result.consumers ≡ 1024 }
        ensures in_bounds { IsLimits result }
    {
        Limits {
            members: 3,
            streams: 16,
            log_bytes: 67_108_864,
            queue: 4096,
            references: 1024,
            consumers: 1024,
        }
    }

    /// The limits of a server whose streams have so many members: 8 streams of 128 MiB for 1 and 3, 8 of 64 MiB for 5,
    /// 6 of 64 MiB for 7, and the standard counts. `None` exactly for other numbers of members.
    pub fn for_members(members: u8) -> Option<Limits>
        ensures known { IsSome result ↔ IsMembers members }
        ensures given { IfSome result (λ limits. limits ≡ limits_for members) }
        ensures in_bounds { IfSome result IsLimits }
    {
        let (streams, log_bytes) = match members {
            1 | 3 => (8, 134_217_728),
            5 => (8, 67_108_864),
            7 => (6, 67_108_864),
            _ => return None,
        };
        Some(Limits {
            members,
            streams,
            log_bytes,
            queue: 4096,
            references: 1024,
            consumers: 1024,
        })
    }

    /// Whether each limit is within its bounds, so that calls take these limits.
    pub fn in_bounds(&self) -> bool
        ensures { IsTrue result ↔ IsLimits self.now }
    {
        if !is_members(self.members) || !self.each_is_up_to() {
            return false;
        }
        let all_logs = u64::from(self.members) * u64::from(self.streams) * self.log_bytes;
        all_logs <= 3_221_225_472
    }

    /// Whether each limit but the members is within its own bounds.
    fn each_is_up_to(&self) -> bool
        ensures { IsTrue result ↔ EachIsUpTo self.now }
    {
        is_up_to(16, u64::from(self.streams))
            && is_up_to(134_217_728, self.log_bytes)
            && is_up_to(4096, u64::from(self.queue))
            && is_up_to(1024, u64::from(self.references))
            && is_up_to(1024, u64::from(self.consumers))
    }
}
