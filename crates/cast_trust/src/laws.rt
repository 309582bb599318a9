ghost use Rattle.cast_trust.specs.Laws.{SealedDeliveriesAreCausal, SealedFramesAreSent};
ghost use Rattle.cast_trust.specs.Laws.{SealedRunsAreNetworks};

/// A frame that comes in a sealed datagram was sent. The premise is that each frame that the keys
/// of two sites seal was sent by the one to the other, since nobody else has these keys. Then a
/// frame of a datagram that opens is one that a step of the network hands to its site.
pub fn sealed_frames_are_sent()
    ensures { SealedFramesAreSent }
{}

/// Sites that take in their own events and such frames alone come to nothing but what steps of a
/// network lead to. So all laws of networks hold of them, as that deliveries are causal.
pub fn sealed_runs_are_networks()
    ensures networks { SealedRunsAreNetworks }
    ensures causal { SealedDeliveriesAreCausal }
{}
