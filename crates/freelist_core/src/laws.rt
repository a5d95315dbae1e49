//! What holds of the pages that the freelist takes.
ghost use Rattle.freelist_core.specs.Free.{FreePagesAreTrunks};

/// The pages that the freelist takes are those of its trunks, and there are such trunks.
pub fn free_pages_are_trunks()
    ensures { FreePagesAreTrunks }
{}
