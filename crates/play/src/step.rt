// One step of a walk over a recording.
ghost use Rattle.std.specs.Prelude.{◌≡◌, true, ◌<◌, length};
ghost use Rattle.table.specs.Well.{well_made};
ghost use Rattle.play.specs.Run.{Stepped};

// What a step gives: play's answer, and the place of the next packet, where the walk goes on.
#[derive(Clone, Copy)]
pub struct Happened {
    pub answer: Result<crate::Heard, words::RefusedAt>,
    pub next: Option<usize>,
}

// Plays the packet at a place of a recording, on a table that is known to be well made.
pub fn step(table: &mut [u32], recording: &[u32], at: usize) -> Happened
    requires { (well_made table.old ≡ true) × (at < length recording.now) }
    ensures { Stepped table.old recording.now at result table.new }
{
    let e = crate::run::run_one(table, recording, at);
    Happened {
        answer: crate::entries::answer_of(e),
        next: if e.size != 0 { Some(at + e.size) } else { None },
    }
}
