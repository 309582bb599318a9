ghost use Rattle.cast_link.specs.Laws.{BundlesAreUnique, FramesStandAlone, SitesReadTheirFrames};

/// What is read of a bundle is what was put in: no other frames are that bundle. And no frame is
/// taken for a bundle. So of the datagrams that carry frames each site reads those that were to go
/// there, each once and in order.
pub fn bundles_are_read_back()
    ensures unique { BundlesAreUnique }
    ensures alone { FramesStandAlone }
    ensures sites { SitesReadTheirFrames }
{}
