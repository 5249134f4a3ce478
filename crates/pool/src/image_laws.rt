//! Laws of a pool's image, stated as the contract of a function without a body.
ghost use Rattle.pool.specs.Images.{RootsAreRead};

/// At each root that `Pool::roots` gives, `Image::read_tree` reads from the pool's image the contents of that root's dataset: of the live map or
/// the snapshot that the root names. This holds for the present datasets and for those that the last sync left.
pub fn pool_image_laws()
    ensures roots { RootsAreRead }
{}
