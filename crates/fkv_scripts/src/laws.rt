//! What the grammar leaves no choice in: laws with no code.
ghost use Rattle.fkv_scripts.specs.OneReading.{SaysOnce, OpensOnce, IsBadOnce, GoodIsNotBad};

/// A line says one thing at most, and a first line opens one store at most. A script is bad at one line
/// at most, and at none where it says something within its limit.
pub fn one_reading()
    ensures line { SaysOnce }
    ensures opening { OpensOnce }
    ensures bad { IsBadOnce }
    ensures good { GoodIsNotBad }
{}
