//! Laws of images and of the roots of datasets, as contracts of functions without a body.
ghost use Rattle.image.specs.ImageLaws.{WalksToContents, WalksAtEachMoment, HoldsTheRewrite, ChangesTellTheirWrites, HoldsThePath, WritesOfPathsAreOpen, ChangesKeepTheirSources, ReadsBack};
ghost use Rattle.image.specs.Roots.{RootsAreWalked};

/// Where an image holds a map's blocks, the walk from the map's root gives the map's contents. If the map's numbers are protected, this holds at
/// every moment of writes to numbers that aren't protected. Once the new blocks of a rewrite are written too, the image holds the rewritten map;
/// these are the new blocks that a change of a tree answers. Where a single path changed, the writes of `write_path` are enough. They are
/// allowed writes, and where a change of a tree chose the numbers, no block is overwritten before it is copied. What `write_to` writes of an
/// image of at least one block is the bytes of an image, and `from_bytes` makes an image with the same blocks of them.
pub fn image_laws()
    ensures contents { WalksToContents }
    ensures moments { WalksAtEachMoment }
    ensures rewrite { HoldsTheRewrite }
    ensures writes { ChangesTellTheirWrites }
    ensures path { HoldsThePath }
    ensures path_open { WritesOfPathsAreOpen }
    ensures sources { ChangesKeepTheirSources }
    ensures read_back { ReadsBack }
{}

/// If each dataset of a world can be walked in the image from its root, then the walk from each root that `roots_of` gives for the world's table
/// yields the contents of that root's dataset: the live map of its file system, or the snapshot that the root names.
pub fn root_laws()
    ensures walked { RootsAreWalked }
{}
