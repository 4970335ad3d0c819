//! The commands.

ghost use Rattle.std.specs.Prelude.{◌≡◌, ◌≢◌, ℕ, ◌^◌, ◌<◌, [], ◌∷◌, IfSome, MatchOption, Some, codes};
ghost use Rattle.parity_program.specs.declared.command.Convertible.{Convertible};
ghost use Rattle.parity_program.specs.declared.command.GraphObject.{GraphObject};
ghost use Rattle.parity_program.specs.declared.command.NumberCommand.{NumberCommand};
ghost use Rattle.parity_program.specs.declared.command.ProblemCommand.{ProblemCommand};
ghost use Rattle.std.specs.Fmt.{decimal};
ghost use Rattle.std.specs.Str.{bytes_eq};
ghost use Rattle.parity_program.specs.Inputs.{object_of};
ghost use Rattle.parity_program.specs.Commands.{Named, words_of, problem_word, convertible_word, object_word, number_word};

/// What the program is asked to do.
#[derive(Clone, Copy, Debug, Drop, PartialEq, Eq)]
pub enum Command {
    /// Reads a text.
    OfText(TextCommand),
    /// Reads nothing, and is about a number.
    OfNumber(NumberCommand, u32),
}

/// What is asked of a text.
#[derive(Clone, Copy, Debug, Drop, PartialEq, Eq)]
pub enum TextCommand {
    /// Reads a problem and what stands behind it.
    OverProblem(ProblemCommand),
    /// Reads a graph.
    OverGraph(GraphCommand),
}

/// What is asked of a problem and what stands behind it.
#[derive(Clone, Copy, Debug, Drop, PartialEq, Eq)]
pub enum ProblemCommand {
    /// Says whether an answer to the problem is good.
    Check,
    /// Makes a longer independent set of lines by one step.
    Improve,
    /// Makes a largest independent set of lines, with its certificate.
    Solve,
}

/// What is asked of a graph.
#[derive(Clone, Copy, Debug, Drop, PartialEq, Eq)]
pub enum GraphCommand {
    /// Finds a largest object in it.
    Find(GraphObject),
    /// Writes the parity problem by which the object is found.
    Convert(Convertible),
}

/// What is looked for in a graph.
#[derive(Clone, Copy, Debug, Drop, PartialEq, Eq)]
pub enum GraphObject {
    /// An object whose problem can be written.
    Converted(Convertible),
    /// Pairs of edges that have no cycle.
    ForestPairs,
    /// Pairs of edges without which the graph is connected.
    SparePairs,
    /// Edge-disjoint paths between terminals of different classes.
    EdgePaths,
    /// Vertices without which a cubic graph has no cycle.
    FeedbackSet,
}

/// What is looked for in a graph by a problem that can be written.
#[derive(Clone, Copy, Debug, Drop, PartialEq, Eq)]
pub enum Convertible {
    /// Edges of which no two have a common end.
    Matching,
    /// Triangles of which none make a cycle.
    Cactus,
    /// Disjoint paths between terminals of different classes.
    PathFamily,
    /// The edges in a cyclic order around each vertex.
    Rotation,
}

/// What is asked of a number.
#[derive(Clone, Copy, Debug, Drop, PartialEq, Eq)]
pub enum NumberCommand {
    /// Writes the problem of the number.
    Generate,
    /// Tells how large the largest independent sets of the number's problem are.
    Sample,
}

impl ProblemCommand {
    /// The command of this word.
    fn of(word: &str) -> Option<ProblemCommand>
        ensures { MatchOption result ((command : ProblemCommand) → word.now ≢ problem_word command)
            (λ command. word.now ≡ problem_word command) }
    {
        if word == "check" {
            Some(ProblemCommand::Check)
        } else if word == "improve" {
            Some(ProblemCommand::Improve)
        } else if word == "solve" {
            Some(ProblemCommand::Solve)
        } else {
            None
        }
    }
}

impl GraphCommand {
    /// What the command is about.
    pub fn object(self) -> GraphObject
        ensures { result ≡ object_of self }
    {
        match self {
            GraphCommand::Find(object) => object,
            GraphCommand::Convert(object) => GraphObject::Converted(object),
        }
    }
}

impl GraphObject {
    /// The object of this word.
    fn of(word: &str) -> Option<GraphObject>
        ensures { MatchOption result ((object : GraphObject) → word.now ≢ object_word object)
            (λ object. word.now ≡ object_word object) }
    {
        if word == "forestpairs" {
            Some(GraphObject::ForestPairs)
        } else if word == "sparepairs" {
            Some(GraphObject::SparePairs)
        } else if word == "epaths" {
            Some(GraphObject::EdgePaths)
        } else if word == "feedback" {
            Some(GraphObject::FeedbackSet)
        } else {
            let object = Convertible::of(word)?;
            Some(GraphObject::Converted(object))
        }
    }
}

impl Convertible {
    /// The object of this word.
    fn of(word: &str) -> Option<Convertible>
        ensures { MatchOption result ((object : Convertible) → word.now ≢ convertible_word object)
            (λ object. word.now ≡ convertible_word object) }
    {
        if word == "matching" {
            Some(Convertible::Matching)
        } else if word == "cactus" {
            Some(Convertible::Cactus)
        } else if word == "spaths" {
            Some(Convertible::PathFamily)
        } else if word == "genus" {
            Some(Convertible::Rotation)
        } else {
            None
        }
    }
}

impl NumberCommand {
    /// The command of this word.
    fn of(word: &str) -> Option<NumberCommand>
        ensures { MatchOption result ((command : NumberCommand) → word.now ≢ number_word command)
            (λ command. word.now ≡ number_word command) }
    {
        if word == "generate" {
            Some(NumberCommand::Generate)
        } else if word == "sample" {
            Some(NumberCommand::Sample)
        } else {
            None
        }
    }
}

/// The number below 2^32 that a decimal spells, maybe with leading zeros.
fn number_of(word: &str) -> Option<u32>
    ensures small { IfSome result (λ n. n < 2 ^ 32) }
    ensures all { (n : ℕ) → n < 2 ^ 32 → word.now ≡ decimal n → result ≡ Some n }
{
    word.parse::<u32>().ok()
}

/// Whether the word is the number's plain decimal.
fn is_plain(word: &str, n: u32) -> bool
    ensures { result ≡ bytes_eq (decimal n) word.now }
{
    let mut buffer = itoa::Buffer::new();
    buffer.format(n) == word
}

/// The number below 2^32 whose plain decimal this is: digits alone, and no leading zero but in `0` itself.
fn plain_number(word: &str) -> Option<u32>
    ensures spelled { IfSome result (λ n. word.now ≡ decimal n) }
    ensures small { IfSome result (λ n. n < 2 ^ 32) }
    ensures all { (n : ℕ) → n < 2 ^ 32 → word.now ≡ decimal n → result ≡ Some n }
{
    let n = number_of(word)?;
    let plain = is_plain(word, n);
    if plain { Some(n) } else { None }
}

/// The command of one word.
fn of_word(word: &str) -> Option<Command>
    ensures { Named (word.now ∷ []) result }
{
    match ProblemCommand::of(word) {
        Some(command) => Some(Command::OfText(TextCommand::OverProblem(command))),
        None => {
            let object = GraphObject::of(word)?;
            Some(Command::OfText(TextCommand::OverGraph(GraphCommand::Find(object))))
        }
    }
}

/// The conversion that the second of two words names, where the first is `convert`.
fn of_conversion(word: &str) -> Option<Command>
    ensures { Named (codes "convert" ∷ word.now ∷ []) result }
{
    let object = Convertible::of(word)?;
    Some(Command::OfText(TextCommand::OverGraph(GraphCommand::Convert(object))))
}

/// The command of two words: a conversion, or that of a word and a number.
fn of_two_words(word: &str, second: &str) -> Option<Command>
    ensures { Named (word.now ∷ second.now ∷ []) result }
{
    if word == "convert" {
        of_conversion(second)
    } else {
        of_word_and_number(word, second)
    }
}

/// The command of a word, which isn't `convert`, and a number.
fn of_word_and_number(word: &str, number: &str) -> Option<Command>
    requires { word.now ≢ codes "convert" }
    ensures { Named (word.now ∷ number.now ∷ []) result }
{
    let command = NumberCommand::of(word)?;
    let n = plain_number(number)?;
    Some(Command::OfNumber(command, n))
}

impl Command {
    /// The command of these words. `None` says that they aren't those of a command.
    pub fn of(words: &[String]) -> Option<Command>
        ensures { Named (words_of words.now) result }
    {
        match words {
            [word] => of_word(word.as_str()),
            [word, second] => of_two_words(word.as_str(), second.as_str()),
            _ => None,
        }
    }
}
