// What holds of the definition of a listing: the contract of a function that does nothing.
ghost use Rattle.runner.specs.Listings.{OneListing};

// No file has two listings, so the listing that was written is the one that the definitions give.
pub fn each_file_has_one_listing()
    ensures { OneListing }
{}
