//! What the text of an option stands for.
ghost use Rattle.std.specs.Prelude.{IfSome, IfNone};
ghost use Rattle.command_line.specs.Values.{IsNumberFrom, IsNoNumberFrom, IsPredictor, IsNoPredictor};
ghost use Rattle.command_line.specs.Values.{text_behind};

use crate::BranchPredictor;

/// The number of the text, or the default without one, if it is in its range.
pub(crate) fn number_in(text: Option<&str>, least: u64, most: u64, default: u64) -> Option<u64>
    ensures some { IfSome result (IsNumberFrom least most default (text_behind text.entry)) }
    ensures none { IfNone result (IsNoNumberFrom least most default (text_behind text.entry)) }
{
    let number = match text {
        None => default,
        Some(text) => text.parse::<u64>().ok()?,
    };
    if number < least || most < number {
        return None;
    }
    Some(number)
}

/// The predictor that the text names, or the default without one.
pub(crate) fn predictor_in(text: Option<&str>) -> Option<BranchPredictor>
    ensures some { IfSome result (IsPredictor (text_behind text.entry)) }
    ensures none { IfNone result (IsNoPredictor (text_behind text.entry)) }
{
    let Some(text) = text else {
        return Some(BranchPredictor::Bimod);
    };
    match text {
        "nottaken" => Some(BranchPredictor::NotTaken),
        "taken" => Some(BranchPredictor::Taken),
        "bimod" => Some(BranchPredictor::Bimod),
        _ => None,
    }
}
