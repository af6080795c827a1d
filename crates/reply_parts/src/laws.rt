//! What the history of a text is, in the words of its parts.

ghost use Rattle.std.specs.Prelude.{◌≡◌, ◌≤◌, ◌+◌, List, ℕ, Some, ◌++◌, length, map};
ghost use Rattle.reply_parts.specs.Heads.{word_of};
ghost use Rattle.reply_parts.specs.History.{greeting, history};
ghost use Rattle.reply_parts.specs.Known.{more_of, told};
ghost use Rattle.reply_parts.specs.Parts.{AreParts, IsPartHead};
ghost use Rattle.reply_parts.specs.declared.mark.Mark.{Mark};

/// The history of whole parts after a greeting is what they give.
pub fn history_of_parts()
    ensures history { (text given : List ℕ) → AreParts text given
        → history (Some (greeting ++ text)) ≡ Some given }
    ensures told { (text given : List ℕ) → AreParts text given
        → told (Some (greeting ++ text)) ≡ Some given }
{}

/// It is right too where the text breaks off, in the bytes of a part or in a head.
pub fn history_of_part()
    ensures in_part { (text given : List ℕ) (m : Mark) (head bytes : List ℕ) (size : ℕ)
        → AreParts text given → IsPartHead (word_of m) head size → length bytes ≤ size
        → history (Some (greeting ++ (text ++ (head ++ bytes))))
        ≡ Some (given ++ map (λ b. b + more_of m) bytes) }
    ensures in_head { (text given front : List ℕ) → AreParts text given → length front ≤ 12
        → history (Some (greeting ++ (text ++ front))) ≡ Some given }
{}
