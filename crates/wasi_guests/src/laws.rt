//! Laws of several guests over one tree.
ghost use Rattle.wasi_guests.specs.Agree.{SchedulesAgree};

/// Guests come to the same under any two schedules in which each of them has as many turns: the same answers, memory and
/// outputs, and the same tree but for the numbers of made nodes.
pub fn schedules_agree()
    ensures agree { SchedulesAgree }
{}
