//! What is proved of parts of records, in other words.
ghost use Rattle.cast_record.specs.Laws.{DomainsAreApart, EachLineIsShown, FilesDoNotMatter};
ghost use Rattle.cast_record.specs.Laws.{MoreTakesAll, NothingBehindTheEnd, OneOfAll, WholeIsAll};

/// The part with room for all events of all domains is the whole record, if nothing is missing in
/// it. A part shows each line as it is or an empty one, whatever files the lines are split over.
pub fn whole_is_all()
    ensures whole { WholeIsAll }
    ensures shown { EachLineIsShown }
    ensures files { FilesDoNotMatter }
{}

/// A part of fewer events is the beginning of one of more: that takes all that this one takes, and
/// behind its end this one takes nothing.
pub fn parts_grow()
    ensures more { MoreTakesAll }
    ensures end { NothingBehindTheEnd }
{}

/// The part of a domain takes what a part of all domains takes and is for the domain. Those of two
/// domains have only lines for all domains in common.
pub fn domains_are_apart()
    ensures one { OneOfAll }
    ensures apart { DomainsAreApart }
{}
