ghost use Rattle.cast_sites.specs.Laws.{DomainsAgree, DomainsAreNetworks, DomainsAreTold};
ghost use Rattle.cast_sites.specs.Laws.{DomainsDeliverCausally, DomainsGoOn};

/// Each domain of a network of daemons is a network of its own. Whatever other domains the daemons
/// serve, and whatever happens to these, steps of the domain alone lead to a network in which the
/// same frames were sent for it, in the same order, and its programs were pushed the same entries.
/// At each site where the domain runs, it stands for the history there. The one premise on the
/// domain is that the sites that serve it agree on its home.
///
/// As daemons go on, so does this network. Where want of memory has halted the domain at a site, it
/// takes no more steps there. The laws of networks hold of each domain. Causal delivery: who
/// delivers a message and one that happened before it delivers that one first. Views agree on the
/// messages delivered in them, and on their order. The laws of what programs are told hold, too: a
/// program of the domain is told just what its process does, so in causal order, and as the others
/// in its views are.
pub fn domains_are_networks()
    ensures networks { DomainsAreNetworks }
    ensures go_on { DomainsGoOn }
    ensures causal { DomainsDeliverCausally }
    ensures agree { DomainsAgree }
    ensures told { DomainsAreTold }
{}
