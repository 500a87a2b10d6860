//! What command lines ask for, by clap's own rules: laws with no code.
ghost use Rattle.fkv_requests.specs.CommandLines.{AsksByNoWord, AsksByReplay, AsksHelpByOption, AsksVersionByOption, IsMistakenWord, IsMistakenMore};

/// No word and the word `replay` ask for a replay, `--help` asks for help and `--version` for the version. The word `reply`
/// is a mistake, and so are the words `replay more`.
pub fn command_lines()
    ensures none { AsksByNoWord }
    ensures replay { AsksByReplay }
    ensures help { AsksHelpByOption }
    ensures version { AsksVersionByOption }
    ensures word { IsMistakenWord }
    ensures more { IsMistakenMore }
{}
