ghost use Rattle.index_file.specs.FormLaws.{BucketOfOneList, BucketStandsThere, BucketTells, BytesOfOneBody, FileOfOneLevel, FooterIsNumbered, HashVectors, KeyHasBucket, MadeHasFooter};

/// The hash of the empty key and of a key of one byte.
pub fn hashes()
    ensures { HashVectors }
{}

/// A look-up in an index file reads one bucket, a file is of one level, and one that was made has its footer.
pub fn files()
    ensures has { KeyHasBucket }
    ensures tells { BucketTells }
    ensures there { BucketStandsThere }
    ensures one { FileOfOneLevel }
    ensures one_list { BucketOfOneList }
    ensures made { MadeHasFooter }
    ensures numbered { FooterIsNumbered }
{}

/// A body of the index log is of one edit with its changes.
pub fn bodies()
    ensures { BytesOfOneBody }
{}
