// Tests of the reader on examples: whole files by text and form, good ones and refused ones.
//
// `told` tells what reading a file answers: 0 and the number of commands, or a refusal's number and
// place. Each table has files and what is told of them. The crate has nothing but tests.

#![tactic(auto)]

#[cfg(test)]
mod tests {
    use commands::{CommandFault, count_commands};
    use std::process::Abort;
    use std::test::Fail;
    use words::TextFault;

    // 0 and the number of commands, or the number and the place of the refusal.
    fn told(file: &[u8]) -> (u32, usize) {
        match count_commands(file) {
            Ok(count) => (0, count),
            Err(CommandFault::Text(TextFault::Byte { place, .. })) => (10, place),
            Err(CommandFault::Text(TextFault::End { place, .. })) => (11, place),
            Err(CommandFault::Form { place, .. }) => (20, place),
        }
    }

    // The commands that were taken before a refusal. (A match, since each answer has its own count.)
    fn taken(file: &[u8]) -> usize {
        match count_commands(file) {
            Ok(count) => count,
            Err(
                CommandFault::Text(TextFault::Byte { taken, .. } | TextFault::End { taken, .. })
                | CommandFault::Form { taken, .. },
            ) => taken,
        }
    }

    // Sees that reading each text tells the number, and the count or place that stands beside it.
    fn tell(rt: &impl Abort, number: u32, cases: &[(&str, usize)]) {
        for (text, place) in cases {
            assert_eq!(rt; told(text.as_bytes()), (number, *place), "{}", text);
        }
    }

    #[test]
    fn good_texts(rt: HostRuntime) {
        let cases = [
            ("M02*", 1),
            ("M02*\n", 1),
            ("\r\nM02*\r\n", 1),
            ("\n\nG01*\r\rM02*\n\r\n", 2),
            ("%LPD*%\n%LPC*%\nM02*\n", 3),
            ("G04*M02*", 2),
            ("G04 a comment, any text!*M02*", 2),
            ("G04M02*M02*", 2),
            ("%TF*%M02*", 2),
            ("%TF.FileFunction,Copper,L1,Top*%M02*", 2),
            ("%TA.AperFunction*%%TO.N,GND*%%TD*%M02*", 4),
        ];
        tell(&rt, 0, &cases);
    }

    #[test]
    fn good_extended_commands(rt: HostRuntime) {
        let cases = [
            ("%FSLAX34Y34*%M02*", 2),
            ("%FSLAX66Y66*%M02*", 2),
            ("%FSLAX15Y15*%M02*", 2),
            ("%MOMM*%M02*", 2),
            ("%MOIN*%M02*", 2),
            ("%ADD10C,0.2*%M02*", 2),
            ("%ADD999C,9999.999999*%M02*", 2),
            ("%ADD10C,5.*%M02*", 2),
            ("%ADD10C,.5*%M02*", 2),
            ("%ADD10C,0*%M02*", 2),
            ("%ADD11R,1X2*%M02*", 2),
            ("%ADD12R,0.5X.25*%M02*", 2),
            ("%ADD100O,1.X1*%M02*", 2),
            ("%ABD13*%%AB*%M02*", 3),
            ("%SRX1Y1I0J0*%%SR*%M02*", 3),
            ("%SRX100Y002I1.5J.5*%M02*", 2),
            ("%SRX000Y000I0J0*%M02*", 2),
            ("%LPD*%%LPC*%M02*", 3),
            ("%LMN*%%LMX*%%LMY*%%LMXY*%M02*", 5),
        ];
        tell(&rt, 0, &cases);
    }

    #[test]
    fn good_word_commands(rt: HostRuntime) {
        let cases = [
            ("G01*G02*G03*M02*", 4),
            ("G75*G36*G37*M02*", 4),
            ("D10*D999*M02*", 3),
            ("D01*D02*D03*M02*", 4),
            ("X-0Y+0D02*M02*", 2),
            ("X1D01*Y1D01*I1D01*J1D01*M02*", 5),
            ("X1Y2I3J4D01*M02*", 2),
            ("X123456789012D02*M02*", 2),
            ("X-123456789012Y+999999999999D03*M02*", 2),
            ("%FSLAX34Y34*%X1234567D02*M02*", 3),
            ("%FSLAX34Y34*%X-1234567Y+7654321D02*M02*", 3),
            ("%FSLAX66Y66*%X123456789012D02*M02*", 3),
            ("%FSLAX34Y34*%%FSLAX36Y36*%X123456789D02*M02*", 4),
            ("X0000D03*M02*", 2),
        ];
        tell(&rt, 0, &cases);
    }

    #[test]
    fn refused_ends_and_marks(rt: HostRuntime) {
        let cases = [
            ("", 11, 0),
            ("\n\r", 11, 2),
            ("%", 11, 1),
            ("*", 10, 0),
            ("**", 10, 0),
            ("%*%", 10, 1),
            ("%%", 10, 1),
            ("G01", 11, 3),
            ("G01*", 11, 4),
            ("G01*G04", 11, 7),
            ("%MOMM*", 11, 6),
            ("%MOMM", 11, 5),
            ("%MOMM*\n%M02*", 10, 6),
            ("%MOMM**", 10, 6),
            ("%MOMM%", 10, 5),
        ];
        for (text, number, place) in cases {
            assert_eq!(rt; told(text.as_bytes()), (number, place), "{}", text);
        }
    }

    #[test]
    fn refused_bytes(rt: HostRuntime) {
        let cases = [
            ("G01%", 10, 3),
            ("G0\r1*M02*", 10, 2),
            ("G01\n*M02*", 10, 3),
            ("\0M02*", 10, 0),
            ("G04 a\0b*M02*", 10, 5),
            ("G04 \x7f*M02*", 10, 4),
            ("G04 \u{e9}*M02*", 10, 4),
            ("\tM02*", 10, 0),
            ("M02*x", 10, 4),
            ("M02*M02*", 10, 4),
            ("M02*\n\n%", 10, 6),
            ("M02*\0", 10, 4),
            ("G01*Q*M0", 20, 4),
            ("Q*\0", 20, 0),
            ("Q\0*", 10, 1),
        ];
        for (text, number, place) in cases {
            assert_eq!(rt; told(text.as_bytes()), (number, place), "{}", text);
        }
    }

    #[test]
    fn refused_apertures(rt: HostRuntime) {
        let cases = [
            ("%ADD9C,1*%", 1),
            ("%ADD1000C,1*%", 1),
            ("%ADD010C,1*%", 1),
            ("%ADD10C,.*%", 1),
            ("%ADD10C,*%", 1),
            ("%ADD10C*%", 1),
            ("%ADD10C,12345*%", 1),
            ("%ADD10C,1.1234567*%", 1),
            ("%ADD10C,1.2.3*%", 1),
            ("%ADD10C,-1*%", 1),
            ("%ADD10C,1X2*%", 1),
            ("%ADD10R,1*%", 1),
            ("%ADD10R,1X*%", 1),
            ("%ADD10R,1X2X3*%", 1),
            ("%ADD10O,1x2*%", 1),
            ("%ADD10P,1X3*%", 1),
            ("%AD10C,1*%", 1),
            ("%ABD9*%", 1),
            ("%AB10*%", 1),
            ("%ABD10,*%", 1),
        ];
        tell(&rt, 20, &cases);
    }

    #[test]
    fn refused_repeats_and_polarities(rt: HostRuntime) {
        let cases = [
            ("%SRX0001Y1I0J0*%", 1),
            ("%SRXY1I0J0*%", 1),
            ("%SRX1Y1I0*%", 1),
            ("%SRX1Y1J0I0*%", 1),
            ("%SRX1Y1I0J0X*%", 1),
            ("%SRY1X1I0J0*%", 1),
            ("%SRX+1Y1I0J0*%", 1),
            ("%LP*%", 1),
            ("%LPX*%", 1),
            ("%LPDD*%", 1),
            ("%LM*%", 1),
            ("%LMYX*%", 1),
            ("%LMXX*%", 1),
        ];
        tell(&rt, 20, &cases);
    }

    #[test]
    fn refused_formats_and_heads(rt: HostRuntime) {
        let cases = [
            ("%FSLAX34Y35*%", 1),
            ("%FSLAX37Y37*%", 1),
            ("%FSLAX33Y33*%", 1),
            ("%FSLAX74Y74*%", 1),
            ("%FSLAX04Y04*%", 1),
            ("%FSTAX34Y34*%", 1),
            ("%FSLAX34Y34Z*%", 1),
            ("%FSLAX34*%", 1),
            ("%MO*%", 1),
            ("%MOCM*%", 1),
            ("%IPPOS*%", 1),
            ("%T*%", 1),
            ("%TX*%", 1),
            ("%G01*%", 1),
            ("%G04*%", 1),
            ("%M02*%", 1),
            ("%D10*%", 1),
            ("%X1D01*%", 1),
        ];
        tell(&rt, 20, &cases);
    }

    #[test]
    fn refused_words(rt: HostRuntime) {
        let cases = [
            ("MOMM*", 0),
            ("LPD*", 0),
            ("TF*", 0),
            ("AB*", 0),
            ("G1*", 0),
            ("G4*", 0),
            ("G74*", 0),
            ("G05*", 0),
            ("G010*", 0),
            ("M00*", 0),
            ("M2*", 0),
            ("m02*", 0),
            ("D*", 0),
            ("D9*", 0),
            ("D010*", 0),
            ("D1000*", 0),
            ("D04*", 0),
            ("D1*", 0),
        ];
        tell(&rt, 20, &cases);
    }

    #[test]
    fn refused_operations(rt: HostRuntime) {
        let cases = [
            ("X1*", 0),
            ("X1Y2*", 0),
            ("XD01*", 0),
            ("X+D01*", 0),
            ("X+-1D01*", 0),
            ("X1.5D01*", 0),
            ("Y1X1D01*", 0),
            ("X1X1D01*", 0),
            ("I1D02*", 0),
            ("J1D03*", 0),
            ("X1Y1I1D03*", 0),
            ("X1D1*", 0),
            ("X1D010*", 0),
            ("X1D04*", 0),
            ("X1D01X*", 0),
            ("X1234567890123D02*", 0),
            ("X-1234567890123D02*", 0),
        ];
        tell(&rt, 20, &cases);
    }

    #[test]
    fn refused_later_commands(rt: HostRuntime) {
        let cases = [
            ("%FSLAX34Y34*%X12345678D02*M02*", 13, 1),
            ("G01*X1Y*M02*", 4, 1),
            ("%MOMM*%\n%LPQ*%\nM02*", 9, 1),
            ("G04*%AD*%M02*", 5, 1),
            ("G01*G02* G03*M02*", 8, 2),
            (" M02*", 0, 0),
        ];
        for (text, place, before) in cases {
            assert_eq!(rt; told(text.as_bytes()), (20, place), "{}", text);
            assert_eq!(rt; taken(text.as_bytes()), before, "{}", text);
        }
    }

    // A megabyte of one comment, and one of short commands.
    #[test]
    fn megabytes(rt: HostRuntime) -> Result<(), Fail> {
        let mut comment = b"G04".to_vec(rt.alloc())?;
        let mut commands = b"".to_vec(rt.alloc())?;
        for _ in 0..262_140u32 {
            comment.extend_from_slice(b" and")?;
            commands.extend_from_slice(b"G01*")?;
        }
        comment.extend_from_slice(b"*M02*")?;
        commands.extend_from_slice(b"M02*")?;
        assert_eq!(rt; told(&comment), (0, 2));
        assert_eq!(rt; told(&commands), (0, 262_141));
        Ok(())
    }
}
