//! Calls for a door.
ghost use Rattle.std.specs.Prelude.{◌≡◌, None};
ghost use Rattle.host_top.specs.Files.{after_call};

/// A call for a door: at which port, and to how many links.
#[derive(Clone, Copy, Debug, PartialEq, Eq)]
pub struct DoorCall {
    pub port: u16,
    pub links: u32,
}

/// The calls for a door: how many were made, and the last.
#[derive(Clone, Copy, Debug, PartialEq, Eq)]
pub struct DoorCalls {
    pub count: u64,
    pub last: Option<DoorCall>,
}

impl DoorCalls {
    /// None was made.
    pub fn none() -> DoorCalls
        ensures { result ≡ record { count = 0; last = None } }
    {
        DoorCalls {
            count: 0,
            last: None,
        }
    }

    /// One more is made.
    pub fn add(&mut self, call: DoorCall)
        ensures { self.new ≡ after_call call self.old }
    {
        self.count = self.count.saturating_add(1);
        self.last = Some(call);
    }
}
