//! The words that commands begin with.
ghost use Rattle.std.specs.Prelude.{◌≡◌, ◌≢◌, ◌<◌, ℕ, true, false, get_or, length, IfNone, IfSome};
ghost use Rattle.session.specs.Commands.{verb_name};
ghost use Rattle.session.specs.declared.verbs.Verb.{Verb};
ghost use Rattle.session.specs.declared.verbs.Verb.TheVariants.{Turn};

/// The word that a command begins with.
#[derive(Clone, Copy)]
pub enum Verb {
    Turn,
    Recover,
    Claim,
    Finish,
    Refresh,
    Commit,
    Show,
    Take,
    Learn,
    Look,
    Creator,
    Touched,
    Info,
    Operand,
    Link,
    Station,
    Ring,
    Rest,
    Meet,
    Report,
    Renew,
    Table,
    Queue,
    Step,
    Until,
    Undo,
    Help,
    List,
    Quit,
}

static VERBS: [Verb; 29] = [
    Verb::Turn,
    Verb::Recover,
    Verb::Claim,
    Verb::Finish,
    Verb::Refresh,
    Verb::Commit,
    Verb::Show,
    Verb::Take,
    Verb::Learn,
    Verb::Look,
    Verb::Creator,
    Verb::Touched,
    Verb::Info,
    Verb::Operand,
    Verb::Link,
    Verb::Station,
    Verb::Ring,
    Verb::Rest,
    Verb::Meet,
    Verb::Report,
    Verb::Renew,
    Verb::Table,
    Verb::Queue,
    Verb::Step,
    Verb::Until,
    Verb::Undo,
    Verb::Help,
    Verb::List,
    Verb::Quit,
];

static WORDS: [&'static str; 29] = [
    "turn", "recover", "claim", "finish", "refresh", "commit", "show", "take", "learn", "look",
    "creator", "touched", "info", "operand", "link", "station", "ring", "rest", "meet", "report",
    "renew", "table", "queue", "step", "until", "undo", "help", "list", "quit",
];

/// The word of a command.
pub(crate) fn word(verb: Verb) -> &'static str
    ensures { result.now ≡ verb_name verb }
{
    WORDS[verb as usize]
}

fn is_word(verb: Verb, text: &[u8]) -> bool
    ensures is { result ≡ true → text.now ≡ verb_name verb }
    ensures not { result ≡ false → text.now ≢ verb_name verb }
{
    word(verb).as_bytes() == text
}

// The first of some commands with this word.
fn verb_among(table: &[Verb], text: &[u8]) -> Option<Verb>
    ensures some { IfSome result (λ v. text.now ≡ verb_name v) }
    ensures none { IfNone result ((k : ℕ) → k < length table.now
        → text.now ≢ verb_name (get_or table.now k Turn)) }
{
    for at in 0..table.len() {
        let verb = table[at];
        if is_word(verb, text) {
            return Some(verb);
        }
    }
    None
}

/// The command with this word.
pub(crate) fn verb_in(word: &[u8]) -> Option<Verb>
    ensures some { IfSome result (λ v. word.now ≡ verb_name v) }
    ensures none { IfNone result ((v : Verb) → word.now ≢ verb_name v) }
{
    verb_among(VERBS.as_slice(), word)
}
