//! The words that lines begin with.

ghost use Rattle.std.specs.Prelude.{◌≡◌};
ghost use Rattle.trace_text.specs.Keywords.{keyword_of, spelling};

/// The word that a line begins with.
#[derive(Clone, Copy)]
pub enum Keyword {
    Draws,
    Conf,
    Window,
    Rekey,
    Lag,
    Suite,
    Flag,
    Group,
    Station,
    Tick,
    Flow,
    Deliver,
    Spread,
    Lose,
    Cut,
    Mend,
    Restart,
    Send,
    Race,
    Burst,
    While,
    End,
    Inject,
    Feed,
}

/// All of them.
const ALL: [Keyword; 24] = [
    Keyword::Draws,
    Keyword::Conf,
    Keyword::Window,
    Keyword::Rekey,
    Keyword::Lag,
    Keyword::Suite,
    Keyword::Flag,
    Keyword::Group,
    Keyword::Station,
    Keyword::Tick,
    Keyword::Flow,
    Keyword::Deliver,
    Keyword::Spread,
    Keyword::Lose,
    Keyword::Cut,
    Keyword::Mend,
    Keyword::Restart,
    Keyword::Send,
    Keyword::Race,
    Keyword::Burst,
    Keyword::While,
    Keyword::End,
    Keyword::Inject,
    Keyword::Feed,
];

impl Keyword {
    /// The one that a word spells.
    pub fn of(word: &[u8]) -> Option<Self>
        ensures { result ≡ keyword_of word.now }
    {
        for keyword in &ALL {
            if word == keyword.text() {
                return Some(*keyword);
            }
        }
        None
    }

    /// How it is spelled.
    fn text(self) -> &'static [u8]
        ensures { result.now ≡ spelling self }
    {
        match self {
            Keyword::Draws => b"draws",
            Keyword::Conf => b"conf",
            Keyword::Window => b"window",
            Keyword::Rekey => b"rekey",
            Keyword::Lag => b"lag",
            Keyword::Suite => b"suite",
            Keyword::Flag => b"flag",
            Keyword::Group => b"group",
            Keyword::Station => b"station",
            Keyword::Tick => b"tick",
            Keyword::Flow => b"flow",
            Keyword::Deliver => b"deliver",
            Keyword::Spread => b"spread",
            Keyword::Lose => b"lose",
            Keyword::Cut => b"cut",
            Keyword::Mend => b"mend",
            Keyword::Restart => b"restart",
            Keyword::Send => b"send",
            Keyword::Race => b"race",
            Keyword::Burst => b"burst",
            Keyword::While => b"while",
            Keyword::End => b"end",
            Keyword::Inject => b"inject",
            Keyword::Feed => b"feed",
        }
    }
}
