// Why a line of a printed report is denied.
ghost use Rattle.std.specs.Prelude.{◌≡◌};
ghost use Rattle.report_replay.specs.DenialCodes.{number_of, text_of};

/// Why a line is denied. On one line the smaller number counts.
#[derive(Clone, Copy, Debug, PartialEq, Eq)]
pub enum DenialCode {
    /// The structure before the path breaks an axiom.
    AxiomIsFalse,
    /// It breaks a conjecture, and the block is not init.
    ConjectureIsFalse,
    /// A step of the path is blocked.
    Blocked,
    /// A table behind the path is not that of the path's end.
    WrongEnd,
    /// The body of the conjecture is true at the end under the values.
    NotBroken,
    /// The verdict is not that of the groups.
    WrongVerdict,
}

impl DenialCode {
    /// Its number; 1 is that of a line that cannot be read.
    pub fn number(self) -> u8
        ensures { result ≡ number_of self }
    {
        match self {
            DenialCode::AxiomIsFalse => 2,
            DenialCode::ConjectureIsFalse => 3,
            DenialCode::Blocked => 4,
            DenialCode::WrongEnd => 5,
            DenialCode::NotBroken => 6,
            DenialCode::WrongVerdict => 7,
        }
    }

    /// It in words.
    pub fn text(self) -> &'static str
        ensures { result.now ≡ text_of self }
    {
        match self {
            DenialCode::AxiomIsFalse => "axiom is false",
            DenialCode::ConjectureIsFalse => "conjecture is false",
            DenialCode::Blocked => "blocked",
            DenialCode::WrongEnd => "wrong end",
            DenialCode::NotBroken => "not broken",
            DenialCode::WrongVerdict => "wrong verdict",
        }
    }
}
