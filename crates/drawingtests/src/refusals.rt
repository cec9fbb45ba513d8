// Each refusal of a command: bodies that meet it, and the nearest that do not.
use crate::reading::{Memory, with_head};
use std::alloc::Global;
use std::process::Abort;
use std::test::Fail;

// Sees of each case, behind the head, that reading tells its number: a refusal's, with its place in the
// body and the commands of the body before it, or 0.
fn check_all(
    rt: &impl Abort,
    heap: Global,
    cases: &[(u32, usize, usize, &str)],
) -> Result<(), Fail> {
    for (number, place, taken, body) in cases {
        let file = with_head(heap, body)?;
        let mut memory = Memory::new(heap, 128, 64, 64)?;
        let (n, p, k) = memory.told(file.as_bytes());
        assert_eq!(rt; n, *number, "{}", body);
        if n > 0 {
            assert_eq!(rt; p, place.saturating_add(63), "{}", body);
            assert_eq!(rt; k, taken.saturating_add(5), "{}", body);
        }
    }
    Ok(())
}

#[test]
fn may_not_stand(rt: HostRuntime) -> Result<(), Fail> {
    let cases = [
        (21, 1, 0, "%FSLAX34Y34*%"),
        (21, 1, 0, "%MOMM*%"),
        (21, 9, 1, "%ABD20*%%ABD21*%"),
        (0, 0, 0, "%ABD20*%%AB*%%ABD21*%%AB*%M02*"),
        (21, 9, 1, "%ABD20*%%SRX1Y1I0J0*%"),
        (21, 14, 1, "%SRX1Y1I0J0*%%ABD20*%"),
        (21, 14, 1, "%SRX1Y1I0J0*%%SRX1Y1I0J0*%"),
        (21, 1, 0, "%AB*%"),
        (21, 1, 0, "%SR*%"),
        (21, 9, 1, "%ABD20*%%SR*%"),
        (21, 14, 1, "%SRX1Y1I0J0*%%AB*%"),
        (21, 0, 0, "G37*"),
        (21, 4, 1, "G36*G36*"),
        (21, 5, 1, "G36*%AB*%"),
        (0, 0, 0, "%ABD20*%G36*G37*%AB*%M02*"),
        (21, 13, 2, "%ABD20*%G36*%AB*%"),
        (21, 8, 1, "%ABD20*%M02*"),
        (21, 13, 1, "%SRX1Y1I0J0*%M02*"),
        (21, 4, 1, "G36*M02*"),
        (0, 0, 0, "M02*"),
        (21, 5, 1, "G36*%LPC*%"),
        (21, 5, 1, "G36*%LMX*%"),
        (21, 5, 1, "G36*%TF.x*%"),
        (0, 0, 0, "%TF.x*%G36*G04 x*G37*M02*"),
        (21, 4, 1, "G36*G75*"),
        (21, 4, 1, "G36*G02*"),
        (21, 4, 1, "G36*G03*"),
        (0, 0, 0, "G36*G01*G37*M02*"),
        (21, 4, 1, "G36*D10*"),
        (21, 4, 1, "G36*X0Y0D03*"),
        (21, 5, 1, "G36*%ADD20C,1*%"),
        (21, 12, 2, "G36*X0Y0D02*X1Y0D01*"),
        (
            0,
            0,
            0,
            "G01*G36*X0Y0D02*X10000Y0D01*Y10000D01*X0Y0D01*G37*M02*",
        ),
        (21, 16, 3, "G02*G36*X0Y0D02*X1Y0D01*"),
        (21, 16, 3, "G01*D10*X0Y0D02*X1Y0I1D01*"),
        (21, 16, 3, "G01*D10*X0Y0D02*X1Y0J0D01*"),
        (21, 16, 3, "G01*G36*X0Y0D02*X1I0D01*"),
        (0, 0, 0, "G01*D10*X0Y0D02*X1Y0D01*M02*"),
    ];
    check_all(&rt, rt.alloc(), &cases)
}

#[test]
fn out_of_range(rt: HostRuntime) -> Result<(), Fail> {
    let cases = [
        (22, 1, 0, "%SRX0Y1I0J0*%"),
        (22, 1, 0, "%SRX1Y0I0J0*%"),
        (22, 1, 0, "%SRX101Y1I0J0*%"),
        (22, 1, 0, "%SRX1Y101I0J0*%"),
        (0, 0, 0, "%SRX100Y100I0J0*%%SR*%M02*"),
        (0, 0, 0, "%SRX1Y1I9999J9999*%%SR*%M02*"),
        (0, 0, 0, "%SRX2Y1I300J0*%%SR*%M02*"),
        (22, 1, 0, "%SRX2Y1I300.005J0*%"),
        (0, 0, 0, "%SRX1Y3I0J150*%%SR*%M02*"),
        (22, 1, 0, "%SRX1Y3I0J150.005*%"),
        (0, 0, 0, "D10*X1500024Y0D03*M02*"),
        (22, 4, 1, "D10*X1500025Y0D03*"),
        (0, 0, 0, "D10*X-1500024Y0D03*M02*"),
        (22, 4, 1, "D10*X-1500025Y0D03*"),
        (0, 0, 0, "D10*X0Y1500024D03*M02*"),
        (22, 4, 1, "D10*X0Y1500025D03*"),
        (22, 0, 0, "X0Y-1500025D02*"),
        (22, 4, 1, "G01*Y1500025D01*"),
        (22, 20, 4, "G75*G03*D10*X0Y0D02*X0Y0I750025D01*"),
        (0, 0, 0, "G75*G03*D10*X0Y0D02*X0Y0I750024D01*M02*"),
        (22, 20, 4, "G75*G03*D10*X0Y0D02*X0Y0J-750025D01*"),
        (0, 0, 0, "G75*G03*D10*X0Y0D02*X0Y0J-750024D01*M02*"),
        (22, 0, 0, "X0Y0I750025D01*"),
        (0, 0, 0, "%ADD20C,50*%M02*"),
        (0, 0, 0, "%ADD20C,50.004*%M02*"),
        (22, 1, 0, "%ADD20C,50.005*%"),
        (0, 0, 0, "%ADD20C,0*%M02*"),
        (22, 1, 0, "%ADD20R,0X1*%"),
        (22, 1, 0, "%ADD20R,1X0*%"),
        (22, 1, 0, "%ADD20O,0.004X1*%"),
        (0, 0, 0, "%ADD20O,0.005X1*%M02*"),
        (0, 0, 0, "%ADD20R,50X50*%M02*"),
        (22, 1, 0, "%ADD20R,50.01X1*%"),
        (22, 1, 0, "%ADD20O,1X50.01*%"),
    ];
    check_all(&rt, rt.alloc(), &cases)
}

#[test]
fn codes(rt: HostRuntime) -> Result<(), Fail> {
    let cases = [
        (23, 1, 0, "%ADD10C,1*%"),
        (23, 1, 0, "%ADD10R,1X1*%"),
        (23, 1, 0, "%ABD10*%"),
        (0, 0, 0, "%ADD13C,1*%M02*"),
        (23, 14, 2, "%ABD20*%%AB*%%ABD20*%"),
        (23, 9, 1, "%ABD20*%%ADD20C,1*%"),
        (0, 0, 0, "%ABD20*%%ADD21C,1*%%AB*%M02*"),
        (23, 0, 0, "D13*"),
        (0, 0, 0, "D12*M02*"),
        (23, 8, 1, "%ABD20*%D20*"),
        (0, 0, 0, "%ABD20*%%AB*%D20*M02*"),
        (23, 13, 1, "%SRX1Y1I0J0*%D20*"),
    ];
    check_all(&rt, rt.alloc(), &cases)
}

#[test]
fn absent(rt: HostRuntime) -> Result<(), Fail> {
    let cases = [
        (24, 0, 0, "X0Y0D03*"),
        (0, 0, 0, "D10*X0Y0D03*M02*"),
        (24, 4, 1, "D10*X0D03*"),
        (24, 4, 1, "D10*Y0D03*"),
        (24, 4, 1, "D10*D03*"),
        (0, 0, 0, "D10*X0Y0D02*D03*M02*"),
        (24, 0, 0, "X0D02*"),
        (24, 0, 0, "Y0D02*"),
        (24, 0, 0, "D02*"),
        (0, 0, 0, "X0Y0D02*D02*M02*"),
        (24, 8, 2, "G01*D10*X0Y0D01*"),
        (24, 12, 2, "G01*X0Y0D02*X1Y1D01*"),
        (24, 12, 2, "D10*X0Y0D02*X1Y1D01*"),
        (24, 16, 3, "G02*D10*X0Y0D02*X0Y0I1000D01*"),
        (0, 0, 0, "G02*G75*D10*X0Y0D02*X0Y0I1000D01*M02*"),
        (24, 20, 3, "D10*X0Y0D02*%ABD20*%D03*"),
        (24, 25, 4, "D10*X0Y0D02*%ABD20*%%AB*%D03*"),
        (24, 25, 3, "D10*X0Y0D02*%SRX1Y1I0J0*%D03*"),
        (24, 30, 4, "D10*X0Y0D02*%SRX1Y1I0J0*%%SR*%D03*"),
        (24, 20, 4, "D10*X0Y0D02*G36*G37*D03*"),
        (0, 0, 0, "D10*X0Y0D02*G36*D02*G37*M02*"),
        (24, 8, 2, "G01*G36*X0Y0D01*"),
    ];
    check_all(&rt, rt.alloc(), &cases)
}

#[test]
fn not_round(rt: HostRuntime) -> Result<(), Fail> {
    let cases = [
        (25, 16, 3, "G01*D11*X0Y0D02*X1Y0D01*"),
        (25, 16, 3, "G01*D12*X0Y0D02*X1Y0D01*"),
        (25, 29, 5, "%ABD20*%%AB*%D20*G01*X0Y0D02*X1Y0D01*"),
        (25, 20, 4, "G75*G02*D11*X0Y0D02*X0Y0I1000D01*"),
        (0, 0, 0, "G01*D10*X0Y0D02*X1Y0D01*M02*"),
        (0, 0, 0, "D11*X0Y0D03*D12*D03*M02*"),
    ];
    check_all(&rt, rt.alloc(), &cases)
}

#[test]
fn arcs(rt: HostRuntime) -> Result<(), Fail> {
    let cases = [
        (26, 20, 4, "G75*G03*D10*X0Y0D02*X0Y0D01*"),
        (26, 20, 4, "G75*G03*D10*X0Y0D02*X0Y0I0J0D01*"),
        (0, 0, 0, "G75*G03*D10*X0Y0D02*X0Y0I2500D01*M02*"),
        (0, 0, 0, "G75*G03*D10*X2500Y0D02*X0Y2600I-2500D01*M02*"),
        (26, 23, 4, "G75*G03*D10*X2500Y0D02*X0Y2700I-2500D01*"),
        (0, 0, 0, "G75*G03*D10*X2500Y0D02*X-2500Y0I-2500D01*M02*"),
        (26, 23, 4, "G75*G03*D10*X2500Y0D02*X2600Y0I-2500D01*"),
        (26, 23, 4, "G75*G02*D10*X2500Y0D02*X2600Y0I-2500D01*"),
    ];
    check_all(&rt, rt.alloc(), &cases)
}

#[test]
fn too_long(rt: HostRuntime) -> Result<(), Fail> {
    let cases = [
        (0, 0, 0, "G01*D10*X-750000Y0D02*X750000D01*M02*"),
        (27, 22, 3, "G01*D10*X-750000Y0D02*X750050D01*"),
        (0, 0, 0, "G01*D10*X0Y-750000D02*Y750000D01*M02*"),
        (27, 22, 3, "G01*D10*X0Y-750000D02*Y750050D01*"),
        (
            0,
            0,
            0,
            "G01*G36*X-1500000Y0D02*X1500000D01*Y10000D01*X-1500000Y0D01*G37*M02*",
        ),
    ];
    check_all(&rt, rt.alloc(), &cases)
}

#[test]
fn contours(rt: HostRuntime) -> Result<(), Fail> {
    let cases = [
        (28, 16, 3, "G01*X0Y0D02*G36*X1Y0D01*"),
        (28, 26, 4, "G01*G36*X0Y0D02*X10000D01*G37*"),
        (28, 26, 4, "G01*G36*X0Y0D02*X10000D01*X5Y5D02*"),
        (0, 0, 0, "G01*G36*X0Y0D02*G37*M02*"),
        (0, 0, 0, "G01*G36*X0Y0D02*X5Y5D02*G37*M02*"),
        (0, 0, 0, "G01*G36*X0Y0D02*X0Y0D01*G37*M02*"),
        (
            28,
            76,
            9,
            "G01*G36*X0Y0D02*X10000D01*Y10000D01*X0Y0D01*X20000Y0D02*X30000D01*Y10000D01*G37*",
        ),
        (0, 0, 0, "G01*G36*G37*M02*"),
    ];
    check_all(&rt, rt.alloc(), &cases)
}

#[test]
fn order_of_checks(rt: HostRuntime) -> Result<(), Fail> {
    let cases = [
        (21, 4, 1, "G36*X1500025Y0D03*"),
        (21, 16, 3, "G01*D10*X0Y0D02*X1500025I1D01*"),
        (21, 9, 1, "%ABD20*%%SRX0Y0I0J0*%"),
        (22, 1, 0, "%ADD10C,60*%"),
        (22, 1, 0, "%ADD10R,0X1*%"),
        (22, 0, 0, "X1500025D03*"),
        (22, 4, 1, "G01*X1500025D01*"),
        (24, 8, 2, "G01*D11*X0Y0D01*"),
        (25, 20, 4, "G75*G02*D11*X0Y0D02*X0Y0D01*"),
        (25, 22, 3, "G01*D11*X-750000Y0D02*X750050D01*"),
        (22, 8, 2, "G01*G36*X1500025D01*"),
        (20, 0, 0, "M01*"),
        (20, 4, 1, "G36*M0*"),
    ];
    check_all(&rt, rt.alloc(), &cases)
}

// Sees of each whole file what reading it tells.
fn check_whole(
    rt: &impl Abort,
    heap: Global,
    cases: &[(&str, (u32, usize, usize))],
) -> Result<(), Fail> {
    for (file, expected) in cases {
        let mut memory = Memory::new(heap, 128, 64, 64)?;
        assert_eq!(rt; memory.told(file.as_bytes()), *expected, "{}", file);
    }
    Ok(())
}

// Before format and unit have both come.
#[test]
fn without_head(rt: HostRuntime) -> Result<(), Fail> {
    let cases = [
        ("M02*", (21, 0, 0)),
        ("%FSLAX34Y34*%M02*", (21, 13, 1)),
        ("%MOMM*%M02*", (21, 7, 1)),
        ("%MOMM*%%FSLAX34Y34*%M02*", (0, 0, 0)),
        ("G04 x*%TF.x*%%FSLAX34Y34*%G04 x*%MOMM*%M02*", (0, 0, 0)),
        ("%FSLAX34Y34*%%LPD*%", (21, 14, 1)),
        ("%FSLAX34Y34*%G01*", (21, 13, 1)),
    ];
    check_whole(&rt, rt.alloc(), &cases)
}

// The bench file, and the same with another code.
#[test]
fn bench_file(rt: HostRuntime) -> Result<(), Fail> {
    let good = "%FSLAX34Y34*%\n%MOMM*%\n%ADD10C,0.2*%\nD10*\nX10000Y10000D03*\nM02*\n";
    let wrong = "%FSLAX34Y34*%\n%MOMM*%\n%ADD10C,0.2*%\nD11*\nX10000Y10000D03*\nM02*\n";
    check_whole(&rt, rt.alloc(), &[(good, (0, 1, 1)), (wrong, (23, 36, 3))])
}
