// The actions of a mask, one after another.
ghost use Rattle.std.specs.Prelude.{◌≡◌, MatchOption};
ghost use Rattle.std.specs.Iterator.{at_most};
ghost use Rattle.walk.specs.Inside.{Lowest};

// Gives the numbers of the actions that a mask marks, the smallest first: it has the mask of those to come.
#[derive(Drop)]
pub struct Marked(pub u32);

impl Iterator for Marked {
    type Item = usize;

    ghost next_gives = { λ s r t. MatchOption r (s.0 ≡ 0) (λ j. Lowest s.0 j t.0) };

    ghost remaining = { λ s. at_most s.0 };

    fn next(&mut self) -> Option<usize> {
        if self.0 == 0 {
            return None;
        }
        let j = self.0.trailing_zeros();
        self.0 &= !(1 << j);
        Some(j as usize)
    }
}
