ghost use Rattle.cast_datagrams.specs.Laws.{DatagramsAgree, DatagramsAreFrames, DatagramsAreTold};
ghost use Rattle.cast_datagrams.specs.Laws.{DatagramsDeliverCausally, FramesAreDatagrams};
ghost use Rattle.cast_datagrams.specs.Laws.{ReceivedFramesWereSent};
ghost use Rattle.cast_datagrams.specs.Laws.{SendersSealWhatIsSpelled, SentFramesAreSpelled};
ghost use Rattle.cast_datagrams.specs.Laws.{SpelledFramesAreReceived};
ghost use Rattle.cast_datagrams.specs.Laws.{SpellingsOfTypesDiffer, WiredFramesAreReceived};

/// Two frames that are values of their types and have one spelling are one frame, of one domain and
/// from one site. Nothing else is asked of their numbers.
pub fn spellings_of_types_differ()
    ensures { SpellingsOfTypesDiffer }
{}

/// Each frame that a site reads of a datagram is a frame that was sent to it, of the same domain
/// and from the same site. The datagram is any that the wire of some daemon was given for the site,
/// whether it comes late, out of order or again, and whether the frame went alone or in a bundle. A
/// datagram that is refused counts as lost. Of the frames of its steps a daemon may hold some back,
/// leave some out, and give some to its wire again, as often as it likes.
///
/// So whole daemons whose wires carry bytes come to nothing but what steps of a network of frames
/// lead to, and the laws of such networks hold of each of their domains.
///
/// Of what a wire is given for a frame that has a spelling, the site reads that frame. Each frame
/// that was sent has one, where the numbers of sites, domains and groups count from 1 in the
/// configurations. So what a wire is given for frames is read, each by its site: nothing that such
/// a daemon sends is refused as bad.
///
/// Each run over frames is one over datagrams, which comes to the same daemons, if all that was
/// sent are values of their types, the sites agree on homes, and numbers count from 1 in the
/// configurations. So nothing is said of nothing.
pub fn datagrams_are_frames()
    ensures sent { ReceivedFramesWereSent }
    ensures networks { DatagramsAreFrames }
    ensures causal { DatagramsDeliverCausally }
    ensures agree { DatagramsAgree }
    ensures told { DatagramsAreTold }
    ensures received { SpelledFramesAreReceived }
    ensures spelled { SentFramesAreSpelled }
    ensures wired { WiredFramesAreReceived }
    ensures back { FramesAreDatagrams }
{}

/// Where the keys of two sites seal nothing but frames that the one sent to the other, each network
/// of a domain has what sealed datagrams ask of it: `cast_trust` says that its sealed runs are runs
/// of steps. Of the numbers of frames nothing is asked, but that they are values of their types.
pub fn senders_seal_what_is_spelled()
    ensures { SendersSealWhatIsSpelled }
{}
