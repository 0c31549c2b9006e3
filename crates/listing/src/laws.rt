// The law of listings, named by a clause, so that the crate stands only with its proof.
ghost use Rattle.listing.specs.Laws.{OneListing};

// A file has one listing only.
pub fn listing_laws()
    ensures { OneListing }
{}
