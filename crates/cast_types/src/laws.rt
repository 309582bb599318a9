ghost use Rattle.std.specs.Prelude.{◌≡◌};
ghost use Rattle.cast_types.specs.declared.limits.TheConstants.{MAX_MEMBERS, MAX_GROUPS};
ghost use Rattle.cast_types.specs.declared.limits.TheConstants.{MAX_SITES, MAX_DOMAINS};
ghost use Rattle.cast_types.specs.declared.limits.TheConstants.{MAX_PAYLOAD, MAX_SITE_FRAME};
ghost use Rattle.cast_types.specs.declared.limits.TheConstants.{MAX_CLIENT_FRAME, MAX_ORDER};
ghost use Rattle.cast_types.specs.declared.limits.TheConstants.{MAX_TAIL, MAX_KEPT, MAX_PLACED};
ghost use Rattle.cast_types.specs.declared.limits.TheConstants.{MAX_UNSETTLED, MAX_POSITION};
ghost use Rattle.cast_types.specs.declared.limits.TheConstants.{MAX_NUMBER, MAX_MOMENT};
ghost use Rattle.cast_types.specs.Laws.{IsOrderOfNames};
ghost use Rattle.cast_types.specs.Names.{domain_cmp, site_cmp, group_cmp};
ghost use Rattle.cast_types.specs.Names.{proc_cmp, entry_cmp, uid_cmp};

/// Names of each sort have a total order, and names that it does not tell apart are one name.
pub fn names_are_ordered()
    ensures domains { IsOrderOfNames domain_cmp }
    ensures sites { IsOrderOfNames site_cmp }
    ensures groups { IsOrderOfNames group_cmp }
    ensures processes { IsOrderOfNames proc_cmp }
    ensures entries { IsOrderOfNames entry_cmp }
    ensures messages { IsOrderOfNames uid_cmp }
{}

/// Each limit is the number that it is said to be.
pub fn limits_are()
    ensures members { MAX_MEMBERS ≡ 64 }
    ensures groups { MAX_GROUPS ≡ 32 }
    ensures sites { MAX_SITES ≡ 16 }
    ensures domains { MAX_DOMAINS ≡ 16 }
    ensures payload { MAX_PAYLOAD ≡ 16384 }
    ensures site_frame { MAX_SITE_FRAME ≡ 60000 }
    ensures client_frame { MAX_CLIENT_FRAME ≡ 20000 }
    ensures order { MAX_ORDER ≡ 576 }
    ensures tail { MAX_TAIL ≡ 512 }
    ensures kept { MAX_KEPT ≡ 2048 }
    ensures placed { MAX_PLACED ≡ 64 }
    ensures unsettled { MAX_UNSETTLED ≡ 512 }
    ensures position { MAX_POSITION ≡ 4000000000 }
    ensures number { MAX_NUMBER ≡ 4294967295 }
    ensures moment { MAX_MOMENT ≡ 4611686018427387904 }
{}
