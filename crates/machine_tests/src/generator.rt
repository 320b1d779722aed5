// The numbers of a generator.
use ads_library::Gen;

/// Seeds, and the first numbers of each.
const NUMBERS: [(u64, [u64; 4]); 3] = [
    (0, [167_951_807, 218_396_424, 1_299_921_937, 861_605_236]),
    (1, [908_834_774, 1_093_944_153, 1_392_341_196, 822_192_870]),
    (
        u64::MAX,
        [1_574_552_488, 1_490_332_343, 1_207_502_677, 901_017_602],
    ),
];

#[test]
fn numbers_follow_from_the_seed(rt: HostRuntime) {
    for (seed, numbers) in NUMBERS {
        let mut generator = Gen::new(seed);
        for number in numbers {
            assert_eq!(rt; generator.next(), number, "of {seed}");
        }
    }
}
