// A harvester of one of two kinds, which is known only at run time.
ghost use Rattle.either.specs.Either.{either, SameSide};

use crate::harvester::Harvester;
use either::Either;

impl<P: Harvester, Q: Harvester> Harvester for Either<P, Q> {
    ghost promised = { either P.Harvester.promised Q.Harvester.promised };

    ghost coming = { either P.Harvester.coming Q.Harvester.coming };

    ghost taken = { SameSide P.Harvester.taken Q.Harvester.taken };

    fn promise(&self) -> u32 {
        match self {
            Either::Left(harvester) => harvester.promise(),
            Either::Right(harvester) => harvester.promise(),
        }
    }

    fn take(&mut self) -> u32 {
        match self {
            Either::Left(harvester) => harvester.take(),
            Either::Right(harvester) => harvester.take(),
        }
    }
}
