ghost use Rattle.cast_view.specs.Laws.{InstallsOnce, MembersInWords, OutsOnce, PreparesOnce};

/// The next view has the members that stay and the joins that are not at suspected sites, and
/// nobody else.
pub fn members_are_the_rule_in_words()
    ensures { MembersInWords }
{}

/// What the home tells a site again changes nothing: a Prepare, an Install, whatever it says then,
/// or an Out, also one with a lower number.
pub fn what_comes_again_changes_nothing()
    ensures prepares { PreparesOnce }
    ensures installs { InstallsOnce }
    ensures outs { OutsOnce }
{}
