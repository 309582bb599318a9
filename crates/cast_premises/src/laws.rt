ghost use Rattle.cast_premises.specs.Laws.{InstallationsAgree, InstallationsAreTold};
ghost use Rattle.cast_premises.specs.Laws.{InstallationsDeliverCausally};
ghost use Rattle.cast_premises.specs.Laws.{InstallationsReadTheirFrames};
ghost use Rattle.cast_premises.specs.Laws.{OneTextNamesOneHome, OneTextNumbersFromOne};

/// Where each daemon serves what one text gives its site, the sites of each domain name one home,
/// and the numbers of sites, domains and groups count from 1.
pub fn one_text_meets_the_premises()
    ensures home { OneTextNamesOneHome }
    ensures numbered { OneTextNumbersFromOne }
{}

/// So the laws hold of daemons that read one configuration, whatever happens to them and to their
/// datagrams: deliveries are in causal order, views agree, and programs are told what their
/// processes do. Of what a wire is given for a frame, the frame's site reads that frame.
pub fn installations_obey_the_laws()
    ensures causal { InstallationsDeliverCausally }
    ensures agree { InstallationsAgree }
    ensures told { InstallationsAreTold }
    ensures wired { InstallationsReadTheirFrames }
{}
