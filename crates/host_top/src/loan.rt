//! Disks that were lent.
ghost use Rattle.std.specs.Prelude.{◌≡◌, is_none, None, Some};
ghost use Rattle.host_top.specs.Files.{RisesWith};

/// A disk that was lent: its label, its count of faults as it was given, and that count as it was
/// put back, if it was.
#[derive(Clone, Copy, Debug, PartialEq, Eq)]
pub struct Loan {
    pub label: u64,
    pub from: u64,
    pub to: Option<u64>,
}

impl Loan {
    /// The disk isn't back.
    pub fn is_out(&self) -> bool
        ensures { result ≡ is_none self.now.to }
    {
        self.to.is_none()
    }

    /// The disk is put back with this count. The other count rises where that rose.
    pub fn end(&mut self, to: u64, faults: &mut u64)
        ensures loan { self.new ≡ record self.old { to = Some to } }
        ensures faults { RisesWith self.old.from to faults.old faults.new }
    {
        self.to = Some(to);
        if to > self.from || to == u64::MAX {
            *faults = faults.saturating_add(1);
        }
    }
}
