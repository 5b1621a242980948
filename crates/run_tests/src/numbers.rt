//! The stream of numbers by which tasks are drawn.

use std::test::Fail;
use task_draws::Random;

#[test]
fn numbers_are_those_of_the_published_generator(rt: HostRuntime) -> Result<(), Fail> {
    let mut random = Random::of(1_234_567);
    assert_eq!(rt; random.next(), 6_457_827_717_110_365_317);
    assert_eq!(rt; random.next(), 3_203_168_211_198_807_973);
    assert_eq!(rt; random.next(), 9_817_491_932_198_370_423);
    Ok(())
}
