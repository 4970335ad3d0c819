ghost use Rattle.std.specs.Prelude.{◌≡◌, ◌≢◌, ℕ, ◌+◌, ◌^◌, ◌<◌, ◌≤◌, ◌↔◌, ◌⊎◌, List, [], ◌∷◌, ◌++◌, length, replicate, None, Some, Ok, Err};
ghost use Rattle.std.specs.Fmt.{decimal};
ghost use Rattle.std.specs.List.{AllByRecursion};
ghost use Rattle.line_lexer.specs.Lines.{Line, lines as text_lines};
ghost use Rattle.line_lexer.specs.Numbers.{number_of};
ghost use Rattle.line_lexer.specs.Words.{IsWord, as_lines};
ghost use Rattle.line_lexer.specs.declared.fault.TextFault.{TextFault};
ghost use Rattle.line_lexer.specs.declared.refusal.Counted.{Counted};
ghost use Rattle.line_lexer.specs.declared.refusal.TextRefusal.{TextRefusal};
ghost use Rattle.text_forms.specs.Causality.{IsOnLine, FaultsOnLine, GivesCausally, RefusesCausally, RefusesAlike};
ghost use Rattle.text_forms.specs.Forms.{Form, due, line, finished, version, counted, counted_within, of_text, whole_text};
ghost use Rattle.text_forms.specs.Places.{Place, word, ended, fixed, number, version_number, limited, entry, position, positions};
ghost use Rattle.text_forms.specs.Places.{some_positions, times};
ghost use Rattle.text_forms.specs.Reading.{Reads, chain, give};
ghost use Rattle.text_forms.specs.Spelling.{IsNumeralOf, StartsWithNumeral, IsOneNumeral, IsNameAndNumeral, IsOneLine, AreNumerals};
ghost use Rattle.text_forms.specs.Spelling.{SpellsPositions, Takes, Fills};

/// A word is read as a number exactly where it is a numeral of it. The decimal of a number below 10^9 is one, zeros may
/// stand before it, and each numeral is a word.
pub fn numerals_are_read()
    ensures read { (n : ℕ) (word : List ℕ) → (number_of word ≡ Some n) ↔ IsNumeralOf n word }
    ensures decimal { (n : ℕ) → n < 10 ^ 9 → IsNumeralOf n (decimal n) }
    ensures zeros { (k n : ℕ) (word : List ℕ) → IsNumeralOf n word → k + length word ≤ 9
        → IsNumeralOf n (replicate k 48 ++ word) }
    ensures word { (n : ℕ) (word : List ℕ) → IsNumeralOf n word → IsWord word }
{}

/// Each place gives a value exactly where the words at the front spell it, and leaves the others.
pub fn places_give_what_is_spelled()
    ensures word { Takes (λ w words. words ≡ w ∷ []) word }
    ensures fixed { (text : List ℕ) → Takes (λ _ words. words ≡ text ∷ []) (fixed text) }
    ensures number { Takes IsOneNumeral number }
    ensures version { Takes (λ _ words. IsOneNumeral 1 words) version_number }
    ensures limited { (what : Counted) (most : ℕ) → Takes (λ n words. IsOneNumeral n words × (n ≤ most)) (limited what most) }
    ensures entry { (order : ℕ) → Takes (λ n words. IsOneNumeral n words × (n < order)) (entry order) }
    ensures position { (lines before : ℕ) →
        Takes (λ n words. IsOneNumeral n words × ((1 ≤ n) × (n ≤ lines) × (before < n))) (position lines before) }
{}

/// The same of the places of many words. Positions may also fill the rest of a line, and then there is one at least.
pub fn lists_give_what_is_spelled()
    ensures positions { (count lines : ℕ) →
        Takes (λ ps words. (length ps ≡ count) × SpellsPositions lines ps words) (positions count lines) }
    ensures some { (lines : ℕ) → Fills (λ ps words. (0 < length ps) × SpellsPositions lines ps words) (some_positions lines) }
    ensures entries { (n order : ℕ) →
        Takes (λ xs words. (length xs ≡ n) × AreNumerals xs words × AllByRecursion (λ x. x < order) xs) (times n (entry order)) }
{}

/// What one reader and then another give: both give, or the first refusal stands.
pub fn chains_read_in_order<T, A, B>()
    ensures gives { (first : Reads T A) (next : A → Reads T B) (at : ℕ) (left rest : List T) (y : B) →
        (chain first next at left ≡ Ok (y, rest))
        ↔ ((x : A) × (middle : List T) × (first at left ≡ Ok (x, middle)) × (next x at middle ≡ Ok (y, rest))) }
    ensures refuses { (first : Reads T A) (next : A → Reads T B) (at : ℕ) (left : List T) (e : TextRefusal) →
        (chain first next at left ≡ Err e)
        ↔ ((first at left ≡ Err e) ⊎ ((x : A) × (middle : List T) × (first at left ≡ Ok (x, middle)) × (next x at middle ≡ Err e))) }
{}

/// A line gives what its place gives of all its words, and a whole text what its form gives of all its lines.
pub fn lines_are_used_up<T>()
    ensures line { (place : Place T) (last : ℕ) (text rest : List Line) (x : T) → (line place last text ≡ Ok (x, rest))
        ↔ ((n : ℕ) × (words : List (List ℕ)) × (text ≡ record { number = n; words = Some words } ∷ rest) × (place n words ≡ Ok (x, []))) }
    ensures text { (form : Form T) (last : ℕ) (text rest : List Line) (x : T) → (whole_text form last text ≡ Ok (x, rest))
        ↔ ((form last text ≡ Ok (x, [])) × (rest ≡ [])) }
{}

/// Each line gives a value exactly where its words spell it, and the end of a text exactly where no line is left.
pub fn lines_give_what_is_spelled()
    ensures version { (name : List ℕ) → Takes (IsOneLine (λ _ words. IsNameAndNumeral name 1 words)) (line (version name)) }
    ensures counted { (name : List ℕ) → Takes (IsOneLine (IsNameAndNumeral name)) (line (counted name)) }
    ensures limited { (name : List ℕ) (what : Counted) (most : ℕ) →
        Takes (IsOneLine (λ n words. IsNameAndNumeral name n words × (n ≤ most))) (line (counted_within name what most)) }
    ensures alone { (name : List ℕ) → Takes (IsOneLine (λ _ words. words ≡ name ∷ [])) (line (fixed name)) }
    ensures end { (last : ℕ) (text rest : List Line) → (finished last text ≡ Ok (tt, rest)) ↔ ((text ≡ []) × (rest ≡ [])) }
{}

/// A line that is written, with the decimal of its number, is read again, whatever lines follow.
pub fn written_lines_are_read()
    ensures version { (name : List ℕ) (last k : ℕ) (ls : List (List (List ℕ))) (rest : List Line) →
        line (version name) last (as_lines k ((name ∷ decimal 1 ∷ []) ∷ ls) ++ rest) ≡ Ok (tt, as_lines (k + 1) ls ++ rest) }
    ensures counted { (name : List ℕ) (n last k : ℕ) (ls : List (List (List ℕ))) (rest : List Line) → n < 10 ^ 9 →
        line (counted name) last (as_lines k ((name ∷ decimal n ∷ []) ∷ ls) ++ rest) ≡ Ok (n, as_lines (k + 1) ls ++ rest) }
    ensures limited { (name : List ℕ) (what : Counted) (most n last k : ℕ) (ls : List (List (List ℕ))) (rest : List Line) →
        n < 10 ^ 9 → n ≤ most →
        line (counted_within name what most) last (as_lines k ((name ∷ decimal n ∷ []) ∷ ls) ++ rest) ≡ Ok (n, as_lines (k + 1) ls ++ rest) }
    ensures alone { (name : List ℕ) (last k : ℕ) (ls : List (List (List ℕ))) (rest : List Line) →
        line (fixed name) last (as_lines k ((name ∷ []) ∷ ls) ++ rest) ≡ Ok (tt, as_lines (k + 1) ls ++ rest) }
{}

/// Which fault comes before any word: `Missing` after the last line where no line is left, and `Byte` at a line with a bad
/// byte. At the end of a text, a line that is left is `Extra`, or `Byte`.
pub fn lines_are_due()
    ensures missing { (last n : ℕ) (text : List Line) →
        (due last text ≡ Err (TextRefusal.Bad n TextFault.Missing)) ↔ ((text ≡ []) × (n ≡ last + 1)) }
    ensures byte { (last n : ℕ) (text : List Line) → (due last text ≡ Err (TextRefusal.Bad n TextFault.Byte))
        ↔ ((more : List Line) × (text ≡ record { number = n; words = None } ∷ more)) }
    ensures extra { (last n : ℕ) (text : List Line) → (finished last text ≡ Err (TextRefusal.Bad n TextFault.Extra))
        ↔ ((words : List (List ℕ)) × (more : List Line) × (text ≡ record { number = n; words = Some words } ∷ more)) }
    ensures bad_extra { (last n : ℕ) (text : List Line) → (finished last text ≡ Err (TextRefusal.Bad n TextFault.Byte))
        ↔ ((more : List Line) × (text ≡ record { number = n; words = None } ∷ more)) }
{}

/// What a refusal of a place says of the words that are left: there is none, or one too many; the first isn't the word
/// that is due; it is no numeral; or it is a numeral of a number that the place doesn't take.
pub fn words_are_refused()
    ensures none { (text : List ℕ) (n : ℕ) (words : List (List ℕ)) →
        (fixed text n words ≡ Err (TextRefusal.Bad n TextFault.Count)) ↔ (words ≡ []) }
    ensures over { (n : ℕ) (words : List (List ℕ)) → (ended n words ≡ Err (TextRefusal.Bad n TextFault.Count)) ↔ (words ≢ []) }
    ensures word { (text : List ℕ) (n : ℕ) (words : List (List ℕ)) → (fixed text n words ≡ Err (TextRefusal.Bad n TextFault.Word))
        ↔ ((word : List ℕ) × (more : List (List ℕ)) × (words ≡ word ∷ more) × (word ≢ text)) }
    ensures number { (n : ℕ) (words : List (List ℕ)) → (number n words ≡ Err (TextRefusal.Bad n TextFault.Number))
        ↔ ((word : List ℕ) × (more : List (List ℕ)) × (words ≡ word ∷ more) × ((x : ℕ) → IsNumeralOf x word → ⊥)) }
    ensures version { (n : ℕ) (words : List (List ℕ)) → (version_number n words ≡ Err (TextRefusal.Bad n TextFault.Version))
        ↔ ((x : ℕ) × StartsWithNumeral x words × (x ≢ 1)) }
    ensures entry { (order n : ℕ) (words : List (List ℕ)) → (entry order n words ≡ Err (TextRefusal.Bad n TextFault.Range))
        ↔ ((x : ℕ) × StartsWithNumeral x words × (order ≤ x)) }
    ensures range { (lines before n : ℕ) (words : List (List ℕ)) → (position lines before n words ≡ Err (TextRefusal.Bad n TextFault.Range))
        ↔ ((x : ℕ) × StartsWithNumeral x words × ((x < 1) ⊎ (lines < x))) }
    ensures order { (lines before n : ℕ) (words : List (List ℕ)) → (position lines before n words ≡ Err (TextRefusal.Bad n TextFault.Order))
        ↔ ((x : ℕ) × StartsWithNumeral x words × ((1 ≤ x) × (x ≤ lines) × (x ≤ before))) }
{}

/// A number above its limit is refused exactly where the line has the name, and then a numeral of it; words that follow
/// don't count.
pub fn limits_are_refused()
    ensures word { (what : Counted) (most x n : ℕ) (words : List (List ℕ)) → (limited what most n words ≡ Err (TextRefusal.Limit what x))
        ↔ (StartsWithNumeral x words × (most < x)) }
    ensures line { (name : List ℕ) (what : Counted) (most x last : ℕ) (text : List Line) →
        (line (counted_within name what most) last text ≡ Err (TextRefusal.Limit what x))
        ↔ ((n : ℕ) × (words : List (List ℕ)) × (more : List Line) × (text ≡ record { number = n; words = Some (name ∷ words) } ∷ more)
        × StartsWithNumeral x words × (most < x)) }
{}

/// The faults of each place are on its line.
pub fn places_fault_on_their_line()
    ensures word { FaultsOnLine word }
    ensures fixed { (text : List ℕ) → FaultsOnLine (fixed text) }
    ensures number { FaultsOnLine number }
    ensures version { (name : List ℕ) → FaultsOnLine (version name) }
    ensures counted { (name : List ℕ) → FaultsOnLine (counted name) }
    ensures limited { (name : List ℕ) (what : Counted) (most : ℕ) → FaultsOnLine (counted_within name what most) }
    ensures entries { (n order : ℕ) → FaultsOnLine (times n (entry order)) }
    ensures positions { (count lines : ℕ) → FaultsOnLine (positions count lines) }
    ensures some { (lines : ℕ) → FaultsOnLine (some_positions lines) }
{}

/// What a line gives depends on that line alone. The end of a text is refused by the line that is left alone.
pub fn lines_are_causal<T>()
    ensures gives { (place : Place T) → GivesCausally (line place) }
    ensures refuses { (place : Place T) → FaultsOnLine place → RefusesCausally (line place) }
    ensures end { RefusesCausally finished }
{}

/// What one form and then another give depends on the lines that they take alone, if it does so for each of them.
pub fn chains_are_causal<A, B>()
    ensures gives { (first : Form A) (next : A → Form B) → GivesCausally first
        → ((x : A) → GivesCausally (next x)) → GivesCausally (chain first next) }
    ensures refuses { (first : Form A) (next : A → Form B) → GivesCausally first → RefusesCausally first
        → ((x : A) → RefusesCausally (next x)) → RefusesCausally (chain first next) }
    ensures value { (x : A) → GivesCausally (give x) × RefusesCausally (give x) }
{}

/// A text that is refused at a line, with a kind other than `Missing`, is refused by its lines up to that one: each text
/// with the same lines up to it is refused in the same way. So is one above a limit, at some line.
pub fn refusals_are_causal<T>()
    ensures fault { (form : Form T) (bytes : List ℕ) (line : ℕ) (kind : TextFault) → RefusesCausally form
        → kind ≢ TextFault.Missing → of_text form bytes ≡ Err (TextRefusal.Bad line kind)
        → RefusesAlike form bytes line (TextRefusal.Bad line kind) }
    ensures any { (form : Form T) (bytes : List ℕ) (e : TextRefusal) → RefusesCausally form → of_text form bytes ≡ Err e
        → (e ≡ TextRefusal.Bad (length (text_lines bytes) + 1) TextFault.Missing)
        ⊎ ((line : ℕ) × IsOnLine e line × RefusesAlike form bytes line e) }
{}
