//! The generations of slots.
ghost use Rattle.std.specs.Prelude.{ℕ, ◌+◌, ◌≤◌};
ghost use Rattle.room_kinds.specs.declared.message.Msg.{Msg as AnyMsg};
ghost use Rattle.room_kinds.specs.declared.system.SysKind.{SysKind as AnyKind};
ghost use Rattle.room_wiring.specs.declared.tables.Tables.{Tables as AnyTables};
ghost use Rattle.actor_duties.specs.State.{Frame};
ghost use Rattle.actor_duties.specs.Frame.{frame_duty};
ghost use Rattle.actor_world.specs.Start.{first_frame};

/// A duty of the frame service raises the last generation of a slot by at most one.
pub fn duties_raise_by_one()
    ensures { (t : AnyTables) (me : ℕ) (f : Frame) (kind : AnyKind) (m : AnyMsg) (s : ℕ)
        → (frame_duty t me f kind m).frame.lives.generation s ≤ f.lives.generation s + 1 }
{}

/// At the start the last generation of a slot is at most 1.
pub fn starts_are_low()
    ensures { (t : AnyTables) (me s : ℕ) → (first_frame t me).lives.generation s ≤ 1 }
{}
