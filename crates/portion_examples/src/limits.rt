// The limits of the plain configuration.
use chip_config::Config;
use try_runs::Limits;

#[test]
fn limits_are_those_of_the_configuration(rt: HostRuntime) {
    let plain = Limits {
        line_bytes: 64,
        core_sets: 64,
        core_ways: 4,
        sig_bits: 9,
        read_limit: 256,
        write_limit: 256,
        portion_max: 4096,
        out_max: 64,
    };
    assert_eq!(rt; Limits::of(&Config::plain()), plain);
}
