//! What cuts of a text come to. Each law is what a function without a body ensures.
ghost use Rattle.std.specs.Prelude.{◌≡◌, ◌≤◌, ◌⊎◌, ◌++◌, ◌∷◌, ℕ, List, length, take, flat_map};
ghost use Rattle.std.specs.List.{AllZip};
ghost use Rattle.csv.specs.Reading.{Reached, default_config, strip_bom};
ghost use Rattle.csv.specs.declared.parser.State.{State};
ghost use Rattle.csv.specs.declared.parser.State.TheVariants as st;
ghost use Rattle.fkv_blocks.specs.Cutting.{AreRecordsOf, IsBetween, IsCut, block_of, state_after};
ghost use Rattle.fkv_blocks.specs.Spans.{AreRecordsAt, Chains};
ghost use Rattle.fkv_blocks.specs.declared.spans.Span.{Span};

/// The records up to a cut, and behind them those of the block that begins there, are the records up to the block's end.
pub fn blocks_add()
    ensures { (text : List ℕ) (low high : ℕ) (before rows : List (List (List ℕ))) → low ≤ high → IsCut text low
        → AreRecordsOf (take low text) before
        → AreRecordsOf (block_of text low high) rows
        → AreRecordsOf (take high text) (before ++ rows) }
{}

/// The records of blocks that lie one behind another, from a text's start to its end, are the text's (`whole`). A line feed in front of a
/// block is no record (`marked`), and no byte order mark: so a block is read as it stands. A record that is met in a block behind such
/// blocks is met in the text behind their records (`met`).
pub fn spans_make()
    ensures whole { (text : List ℕ) (spans : List Span) (parts : List (List (List (List ℕ)))) → Chains 0 spans (length text)
        → AllZip (AreRecordsAt text) spans parts
        → AreRecordsOf text (flat_map (λ part. part) parts) }
    ensures marked { (block : List ℕ) (rows : List (List (List ℕ))) → AreRecordsOf (strip_bom (10 ∷ block)) rows → AreRecordsOf block rows }
    ensures met { (text : List ℕ) (low high : ℕ) (spans : List Span) (parts : List (List (List (List ℕ)))) (rows : List (List (List ℕ)))
        (r : List (List ℕ)) (s : State) (left : List ℕ)
        → low ≤ high
        → Chains 0 spans low
        → AllZip (AreRecordsAt text) spans parts
        → IsCut text low
        → IsBetween (state_after st.StartRecord (block_of text low high)) ⊎ (length text ≤ high)
        → Reached default_config st.StartRecord (block_of text low high) (r ∷ rows) s left
        → (rest : List ℕ) × Reached default_config st.StartRecord text (flat_map (λ part. part) parts ++ r ∷ rows) s rest }
{}
