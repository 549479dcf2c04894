//! Where links come from (own).
use crate::Served;
use line_talk::Link;
use std::sync::Wait;

/// What a door answers.
pub enum Next<O: Door> {
    /// A link that nobody else has.
    Link(O::Conn),
    /// The door is shut: no link comes any more.
    Shut(O::End),
    /// The door failed.
    Failed(O::Fault),
}

/// A door that workers share. Both its calls may wait.
pub trait Door: Sync {
    ghost use Rattle.host_serve.specs.Doors.{IsAnswer, IsFresh, MayHangUp};

    /// A link. Only `hang_up` ends one.
    type Conn: Link + Send;

    /// What tells that the door is shut.
    type End: Drop + Send;

    /// Why the door failed.
    type Fault: Drop + Send;

    /// The links that it may give.
    ghost gives: { Self → Self.Conn → Type 0 };

    ghost shuts: { Self → Self.End → Type 0 };

    ghost fails: { Self → Self.Fault → Type 0 };

    /// The next link.
    fn next<W: Wait>(&self, rt: &W) -> Next<Self>
        ensures { IsAnswer (λ link. gives self.now link
            × IsFresh (Self.Conn.source link) (Self.Conn.sink link)) (shuts self.now)
            (fails self.now) result };

    /// Ends a link.
    fn hang_up<W: Wait>(&self, rt: &W, link: Self::Conn, why: &Served)
        requires { MayHangUp why.now (Self.Conn.source link) (Self.Conn.sink link) };
}
