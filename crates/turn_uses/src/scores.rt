//! The best score so far, and how far an earlier score is behind it.
ghost use Rattle.std.specs.Prelude.{◌≡◌, ℕ, ◌+◌, ◌^◌, ◌<◌, List, [], ◌∷◌, ◌++◌, length, refl};
ghost use Rattle.turn_book.specs.Standing.{StandsAt, stands_longer};
ghost use Rattle.turn_uses.specs.Scores.{AreScores, best_after, scores_before};

use turn_book::replayed::{Act, Replayed};

/// One entry in the history of a best score.
#[derive(Debug, Drop)]
pub enum Score {
    /// This score was handed in.
    Submitted(u64),
    /// A score that had been handed in was found to be so far behind the best.
    Compared {
        /// The score.
        score: u64,
        /// The best at that turn less the score.
        behind: u64,
    },
}

/// The best of the scores that were handed in.
#[derive(Debug, Drop)]
pub struct Best {
    /// The best score.
    pub score: u64,
}

impl Replayed for Best {
    type Entry = Score;

    type Opening = u64;

    ghost opening = { λ x. x.score };

    ghost legal = { AreScores };

    ghost outcome = { λ best h x. x.score ≡ best_after best h };

    ghost untold = { λ best. ⊥ };

    ghost begins = { λ x. (tt, refl) };

    ghost earlier = { scores_before };

    ghost free = { λ best h e. absurd e };
}

/// Hands a score in.
#[derive(Debug, Drop)]
pub struct Submit {
    /// The score.
    pub score: u64,
}

impl Act<Best> for Submit {
    ghost use Rattle.turn_uses.specs.declared.scores.Score.{Score};

    type Reply = ();

    ghost entry = { λ a r. Score.Submitted a.score };

    ghost may = { λ a best h. Unit {0} };

    ghost told = { λ best h a b r. Unit {0} };

    ghost lasts = { λ a best h k m l. tt };

    fn play(&mut self, value: &mut Best, _place: u64) {
        value.score = value.score.max(self.score);
    }
}

/// Answers how far a score is behind the best. The caller has seen it handed in, at this place.
#[derive(Debug, Drop)]
pub struct Compare {
    /// The score.
    pub score: u64,
    /// The place of the turn in which it was handed in.
    pub place: u64,
}

impl Act<Best> for Compare {
    ghost use Rattle.turn_uses.specs.declared.scores.Score.{Score};
    ghost use Rattle.std.specs.Prelude.{◌≡◌, ◌+◌};

    type Reply = u64;

    ghost entry = { λ a r. Score.Compared a.score r };

    ghost may = { λ a best h. StandsAt h a.place (Score.Submitted a.score) };

    ghost told = { λ best h a b r. a.score + r ≡ best_after best h };

    ghost lasts = { λ a best h k s l. stands_longer h k a.place (Score.Submitted a.score) s };

    fn play(&mut self, value: &mut Best, _place: u64) -> u64 {
        value.score - self.score
    }
}
