//! What chooses, and the turns of a choice.

ghost use Rattle.std.specs.Prelude.{◌≡◌, ◌+◌, ◌<◌, ◌≤◌};
ghost use Rattle.index_hooks.specs.Turns.{most_turns, taken};

use crate::choice::Choice;
use proto_decl::DeclView;

/// The right to ask one filter or one rule, once. Only `Turns` make turns. A turn can't be copied, and `ask`
/// takes it by value.
#[derive(Debug, Drop)]
pub struct Turn {
    place: usize,
}

/// The turns of one choice: those of the filters in their order, and then those of the rules in theirs. Each is given
/// out once. Only `choose` makes turns, those of one choice for each call.
#[derive(Debug, Drop)]
pub struct Turns {
    taken: usize,
}

impl Turns {
    ghost use Rattle.std.specs.Prelude.{◌≡◌, ◌+◌, ◌<◌, ◌≤◌};
    ghost use Rattle.index_hooks.specs.Turns.{most_turns, taken, place_of};

    /// The turns of a choice for which nobody has been asked yet.
    fn new() -> Turns
        ensures { taken result ≡ 0 }
    {
        Turns { taken: 0 }
    }

    /// The next turn.
    pub fn next(&mut self) -> Turn
        requires { taken self.old < most_turns }
        ensures place { place_of result ≡ taken self.old }
        ensures taken { taken self.new ≡ taken self.old + 1 }
    {
        let place = self.taken;
        self.taken += 1;
        Turn { place }
    }

    /// Leaves out the turns before this place.
    pub(crate) fn leave_out(&mut self, place: usize)
        requires { taken self.old ≤ place }
        ensures { taken self.new ≡ place }
    {
        self.taken = place;
    }
}

/// What chooses for a declaration.
pub trait Chooses {
    ghost use Rattle.proto_decl.specs.Values.{Seen};
    ghost use Rattle.index_hooks.specs.declared.choice.Choice.{Choice};

    // The choices that may come.
    ghost allows: { Self → Seen → Choice → Type 0 };

    /// The choice for a declaration, by these turns, of which none has been given out.
    fn choose_by(&self, turns: Turns, view: &DeclView<'_>) -> Choice
        requires { taken turns ≡ 0 }
        ensures { allows self.now view.now result };

    /// The choice for a declaration.
    final fn choose(&self, view: &DeclView<'_>) -> Choice
        ensures { allows self.now view.now result }
    {
        self.choose_by(Turns::new(), view)
    }
}
